// A row of a page as it is printed: its layers painted, each ink after its curve, and the ink limit of a
// pixel applied.
ghost use Rattle.std.specs.Prelude.{◌≡◌, ◌+◌, ◌-◌, ◌<◌, ◌≤◌, IfOk, length};
ghost use Rattle.page_layers.specs.Inks.{HasWidth, plane_of};
ghost use Rattle.page_tone.specs.Limit.{AreLimited};
ghost use Rattle.press_job.specs.Planes.{IsSameKind, ShowsInks};

use crate::plane::Plane;
use crate::tones::Tones;
use page_layers::{InkRow, PageInks, PageRows};
use page_tone::limit_row;
use plan_json::Plan;
use pr_base::{Ink, NoMemory};
use std::alloc::Global;
use std::marker::Model;

/// The row of a page that was made last, as it is printed: for each of the five inks one byte per pixel from
/// the left, 0 for no ink and 255 for full ink. Contracts see these values.
#[derive(Drop)]
pub struct PrintedRow {
    inks: InkRow,
    /// The values of each ink that the page does not print.
    blank: Vec<u8>,
    cyan: Plane,
    magenta: Plane,
    yellow: Plane,
    black: Plane,
    spot: Plane,
}

impl Model for PrintedRow {
    ghost use Rattle.page_layers.specs.Inks.{Planes};

    ghost Value = { Planes };

    ghost use Rattle.press_job.specs.Planes.{HaveWidth, shown_planes};

    ghost view = { λ r. shown_planes r.inks r.blank.items r.cyan r.magenta r.yellow r.black r.spot };

    ghost invariant = { λ r. HaveWidth r.inks r.blank.items r.cyan r.magenta r.yellow r.black r.spot };
}

impl PrintedRow {
    /// Allocates a row as wide as the plan's pages. It holds no row yet.
    pub fn new(alloc: Global, plan: &Plan) -> Result<PrintedRow, NoMemory>
        ensures { IfOk result (λ row. HasWidth row plan.now.page_width) }
    {
        let width = plan.page_width;
        Ok(PrintedRow {
            inks: InkRow::new(alloc, width)?,
            blank: vec![in alloc; 0; width as usize]?,
            cyan: Plane::new(alloc, width)?,
            magenta: Plane::new(alloc, width)?,
            yellow: Plane::new(alloc, width)?,
            black: Plane::new(alloc, width)?,
            spot: Plane::new(alloc, width)?,
        })
    }

    /// Makes the next row of a page that prints C, M and Y if `colour`, and S if `spot`. Every page prints K.
    /// The page has a row left and is as wide as this row; the call moves it to its following row. Before the
    /// page's first row this value may hold any row; later it holds the page's previous row, made with the
    /// same tone and the same inks. If the two rows are equal, nothing is painted.
    pub fn advance(&mut self, page: &mut PageRows<'_>, tones: &Tones<'_>, colour: bool, spot: bool)
        requires left { page.old.next < page.old.height }
        requires width { HasWidth self.old page.old.width }
        requires before { 0 < page.old.next →
            ShowsInks tones.now colour spot page.old.layers page.old.width (page.old.next - 1) self.old }
        ensures shows { ShowsInks tones.now colour spot page.old.layers page.old.width page.old.next
            self.new }
        ensures width { HasWidth self.new page.old.width }
        ensures page { page.new ≡ record page.old { next = page.old.next + 1 } }
    {
        if page.repeats() {
            page.pass();
        } else {
            self.paint(page, tones, colour, spot);
        }
    }

    /// Makes the next row of a page like `advance`, but always paints it, whatever row this value holds. The
    /// rows above it may have been skipped.
    pub fn paint(&mut self, page: &mut PageRows<'_>, tones: &Tones<'_>, colour: bool, spot: bool)
        requires left { page.old.next < page.old.height }
        requires width { HasWidth self.old page.old.width }
        ensures shows { ShowsInks tones.now colour spot page.old.layers page.old.width page.old.next
            self.new }
        ensures width { HasWidth self.new page.old.width }
        ensures page { page.new ≡ record page.old { next = page.old.next + 1 } }
    {
        page.next_in(PageInks { colour, spot }, &mut self.inks);
        let is_limited = tones.limits(colour);
        self.cyan
            .tone(tones, Ink::C, colour, is_limited, self.inks.plane(Ink::C));
        self.magenta
            .tone(tones, Ink::M, colour, is_limited, self.inks.plane(Ink::M));
        self.yellow
            .tone(tones, Ink::Y, colour, is_limited, self.inks.plane(Ink::Y));
        self.black
            .tone(tones, Ink::K, true, is_limited, self.inks.plane(Ink::K));
        self.spot
            .tone(tones, Ink::S, spot, false, self.inks.plane(Ink::S));
        if is_limited {
            limit_planes(
                tones.limit(),
                &mut self.cyan,
                &mut self.magenta,
                &mut self.yellow,
                &mut self.black,
            );
        }
    }

    /// Lends the values of an ink, one byte per pixel from the left. They are 0 if the page does not print
    /// it.
    pub fn values(&self, ink: Ink) -> &[u8]
        ensures { result.now ≡ plane_of self.now ink }
    {
        let row = self.inks.plane(ink);
        match ink {
            Ink::C => self.cyan.of(row, &self.blank),
            Ink::M => self.magenta.of(row, &self.blank),
            Ink::Y => self.yellow.of(row, &self.blank),
            Ink::K => self.black.of(row, &self.blank),
            Ink::S => self.spot.of(row, &self.blank),
        }
    }
}

/// Applies the ink limit to each pixel of a row.
fn limit_planes(
    limit: u16,
    cyan: &mut Plane,
    magenta: &mut Plane,
    yellow: &mut Plane,
    black: &mut Plane,
)
    requires limit { limit ≤ 1020 }
    requires magenta { length magenta.old.values.items ≡ length cyan.old.values.items }
    requires yellow { length yellow.old.values.items ≡ length cyan.old.values.items }
    requires black { length black.old.values.items ≡ length cyan.old.values.items }
    ensures values { AreLimited limit
        cyan.old.values.items magenta.old.values.items yellow.old.values.items black.old.values.items
        cyan.new.values.items magenta.new.values.items yellow.new.values.items black.new.values.items }
    ensures cyan { IsSameKind cyan.old cyan.new }
    ensures magenta { IsSameKind magenta.old magenta.new }
    ensures yellow { IsSameKind yellow.old yellow.new }
    ensures black { IsSameKind black.old black.new }
{
    limit_row(
        limit,
        &mut cyan.values,
        &mut magenta.values,
        &mut yellow.values,
        &mut black.values,
    );
}

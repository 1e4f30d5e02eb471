// The first keys of a plan: edition, resolution, and the sizes of pages and plates.
ghost use Rattle.std.specs.Prelude.{◌≡◌, ◌≤◌, IfOk, codes};
ghost use Rattle.plan_json.specs.Data.{width_over, height_over};
ghost use Rattle.plan_parts.specs.Gives.{Gives};
ghost use Rattle.plan_parts.specs.Node.{inside};
ghost use Rattle.plan_parts.specs.Reading.{optional};
ghost use Rattle.plan_json.specs.PlanOf as spec;

use crate::four_numbers::FourNumbers;
use plan_parts::{Name, Node, Number, Object, PlanFault, Reader};
use pr_base::PathText;

/// The values of a plan's first keys; lengths are in pixels.
#[derive(Drop)]
pub(crate) struct FirstKeys {
    pub(crate) edition: PathText,
    pub(crate) dpi: u32,
    pub(crate) page_width: u32,
    pub(crate) page_height: u32,
    pub(crate) margins: [u32; 4],
    pub(crate) gutter: u32,
    pub(crate) limit: u16,
}

// Reads the width and height of a page.
#[derive(Drop)]
struct PageSizeReader;

impl Reader for PageSizeReader {
    type Out = (u32, u32);

    ghost reads = { λ _. spec.page_size };

    #[tactic(auto, unfolding(crate::specs::PlanOf::page_size))]
    fn read(&self, node: Node<'_>) -> Result<(u32, u32), PlanFault> {
        let items = node.items(2, 2)?;
        let width = items.required(0, &Number(1, 65535))? as u32;
        let height = items.required(1, &Number(1, 65535))? as u32;
        Ok((width, height))
    }
}

// Reads the margins of a plate.
#[tactic(auto, unfolding(crate::specs::PlanOf::margins))]
fn margins_in(o: &Object<'_>) -> Result<[u32; 4], PlanFault>
    ensures { Gives (λ m. m) result
        (inside o.now (optional (codes "margins") spec.no_margins spec.margins)) }
{
    o.optional("margins", [0, 0, 0, 0], &FourNumbers { low: 0 })
}

// Returns a plate's width: two pages, the gutter, and the left and right margins.
fn sum_width(margins: &[u32; 4], page_width: u32, gutter: u32) -> u64
    ensures { result ≡ width_over margins.now page_width gutter }
{
    u64::from(margins[0]) + 2 * u64::from(page_width) + u64::from(gutter) + u64::from(margins[2])
}

// Returns a plate's height: a page, and the margins above and below.
fn sum_height(margins: &[u32; 4], page_height: u32) -> u64
    ensures { result ≡ height_over margins.now page_height }
{
    u64::from(margins[1]) + u64::from(page_height) + u64::from(margins[3])
}

fn fits_plate(margins: &[u32; 4], page_width: u32, page_height: u32, gutter: u32) -> bool
    ensures { result ≡ spec.fits_plate margins.now page_width page_height gutter }
{
    sum_width(margins, page_width, gutter) <= 65535 && sum_height(margins, page_height) <= 65535
}

/// Reads the first keys. The plate's sides are checked once the gutter is known.
#[tactic(auto, unfolding(crate::specs::PlanOf::front))]
pub(crate) fn first_keys_in(o: &Object<'_>) -> Result<FirstKeys, PlanFault>
    ensures value { Gives (λ f. f) result (inside o.now spec.front) }
    ensures width { IfOk result (λ f. width_over f.margins f.page_width f.gutter ≤ 65535) }
    ensures height { IfOk result (λ f. height_over f.margins f.page_height ≤ 65535) }
{
    let edition = o.required("edition", &Name)?;
    let dpi = o.required("dpi", &Number(1, 10000))? as u32;
    let page = o.required("page", &PageSizeReader)?;
    let margins = margins_in(o)?;
    let gutter = o.optional("gutter", 0, &Number(0, 65535))? as u32;
    if !fits_plate(&margins, page.0, page.1, gutter) {
        return Err(PlanFault::Range(o.path_to("page")?));
    }
    let limit = o.optional("limit", 1020, &Number(0, 1020))? as u16;
    Ok(FirstKeys {
        edition,
        dpi,
        page_width: page.0,
        page_height: page.1,
        margins,
        gutter,
        limit,
    })
}

impl FirstKeys {
    /// Returns the width of a plate in pixels.
    pub(crate) fn plate_width(&self) -> u32
        requires { width_over self.now.margins self.now.page_width self.now.gutter ≤ 65535 }
        ensures { result ≡ width_over self.now.margins self.now.page_width self.now.gutter }
    {
        sum_width(&self.margins, self.page_width, self.gutter) as u32
    }

    /// Returns the height of a plate in pixels.
    pub(crate) fn plate_height(&self) -> u32
        requires { height_over self.now.margins self.now.page_height ≤ 65535 }
        ensures { result ≡ height_over self.now.margins self.now.page_height }
    {
        sum_height(&self.margins, self.page_height) as u32
    }
}

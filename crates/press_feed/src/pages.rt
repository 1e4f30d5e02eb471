// The pages on both sides of a plate, and the rows of plates that show them.
ghost use Rattle.std.specs.Prelude.{◌≡◌, ◌<◌, IfOk, None, false, length, true};
ghost use Rattle.std.specs.Option.{ForSome};
ghost use Rattle.pr_base.specs.Row.{row_size};
ghost use Rattle.pr_base.specs.declared.ink.Ink.{Ink as InkData};
ghost use Rattle.plan_json.specs.Data.{plate_height, plate_width};
ghost use Rattle.plan_pages.specs.Plate.{shape_of_plate};
ghost use Rattle.plan_rows.specs.Inks.{has_ink};
ghost use Rattle.press_feed.specs.Maker.{AreSources};
ghost use Rattle.press_feed.specs.Plates.{ShowsPages, page_row as row_of_pages};
ghost use Rattle.press_feed.specs.Screener.{is_diffused};
ghost use Rattle.press_job.specs.Rows.{plate_row};

use crate::byte_row::clear;
use crate::page_blocks::PageBlocks;
use crate::page_pair::PagePair;
use crate::screener::has_diffused;
use crate::wanted::Wanted;
use plan_json::Plan;
use plan_pages::{PlateShape, mark_row};
use plan_rows::{Group, RowPlace};
use pr_base::{Ink, NoMemory};
use press_job::Job;
use std::alloc::Global;

/// The pages of a job, made row by row, or by blocks if an ink is diffused.
#[derive(Drop)]
pub(crate) struct Pages<'j> {
    pub(crate) wanted: Wanted<'j>,
    pub(crate) pair: PagePair<'j>,
    /// If the plan diffuses an ink.
    pub(crate) blocks: Option<PageBlocks<'j>>,
}

impl<'j> Pages<'j> {
    /// Draws a row of a plate of a group: the two pages at their positions, the marks, and nothing else.
    pub(crate) fn draw_row(&mut self, job: &Job, group: &Group, place: RowPlace, bits: &mut [u8])
        requires sources { AreSources job.now self.old.pair self.old.blocks }
        requires ink { has_ink group.now place.ink ≡ true }
        requires y { place.y < plate_height job.now.plan }
        requires row { length bits.old ≡ row_size (plate_width job.now.plan) }
        ensures row { bits.new
            ≡ plate_row job.now.plan job.now.files group.now.left group.now.right place.ink place.y }
        ensures sources { AreSources job.now self.new.pair self.new.blocks }
    {
        self.draw(job, group, place, bits);
        mark_row(job.plan(), place.ink, place.y, bits);
    }

    /// Draws the two pages at their positions on a row of a plate, and nothing else: by blocks if an ink of
    /// the group is diffused, this one or one that is wanted.
    fn draw(&mut self, job: &Job, group: &Group, place: RowPlace, bits: &mut [u8])
        requires sources { AreSources job.now self.old.pair self.old.blocks }
        requires ink { has_ink group.now place.ink ≡ true }
        requires row { length bits.old ≡ row_size (plate_width job.now.plan) }
        ensures pages { ShowsPages job.now.plan job.now.files group.now.left group.now.right
            place.ink place.y bits.new }
        ensures sources { AreSources job.now self.new.pair self.new.blocks }
    {
        let Some(y) = page_row(job.plan(), job.shape(), place.y) else {
            clear(bits);
            return;
        };
        let by_blocks = has_diffused(job.plan(), place.ink)
            || self.wanted.diffuses(job.plan(), place.group, group);
        match &mut self.blocks {
            Some(blocks) if by_blocks => blocks.draw(group, place.ink, y, bits),
            _ => self.pair.draw_at(group, place.ink, y, bits),
        }
    }
}

/// Returns the pages of a job in blocks, if its plan diffuses an ink.
pub(crate) fn open_blocks<'j>(
    alloc: Global,
    job: &'j Job,
) -> Result<Option<PageBlocks<'j>>, NoMemory>
    ensures job { IfOk result (λ blocks. ForSome blocks (λ b. b ≡ job.now)) }
    ensures none { IfOk result (λ blocks. blocks ≡ None → (ink : InkData) →
        is_diffused job.now.plan ink ≡ false) }
{
    let plan = job.plan();
    if has_diffused(plan, Ink::C)
        || has_diffused(plan, Ink::M)
        || has_diffused(plan, Ink::Y)
        || has_diffused(plan, Ink::K)
        || has_diffused(plan, Ink::S)
    {
        Ok(Some(PageBlocks::open(alloc, job)?))
    } else {
        Ok(None)
    }
}

/// The row of its pages that row `y` of a plate shows, if it shows one.
pub(crate) fn page_row(plan: &Plan, shape: PlateShape, y: u32) -> Option<u32>
    requires { shape ≡ shape_of_plate plan.now }
    ensures { result ≡ row_of_pages plan.now y }
{
    let top = shape.top_y;
    if top <= y && y - top < plan.page_height {
        Some(y - top)
    } else {
        None
    }
}

// The two pages of a plate in blocks of rows, for groups with a diffused ink: error diffusion takes eight
// rows at once.
ghost use Rattle.std.specs.Prelude.{◌≡◌, ◌<◌, IfOk, length, true};
ghost use Rattle.pr_base.specs.Row.{row_size};
ghost use Rattle.plan_json.specs.Data.{plate_width};
ghost use Rattle.plan_rows.specs.Inks.{has_ink};
ghost use Rattle.press_feed.specs.Plates.{DrawsPages};

use crate::plate_row::join_sides;
use crate::side::Side;
use crate::side_rows::{AHEAD, SideRows};
use plan_rows::Group;
use pr_base::{Ink, NoMemory};
use press_job::Job;
use std::alloc::Global;
use std::marker::Model;

/// The pages of both sides, each with a block of its rows drawn in each ink. Contracts see the job.
#[derive(Drop)]
pub(crate) struct PageBlocks<'j> {
    job: &'j Job,
    left: SideRows<'j>,
    right: SideRows<'j>,
}

impl<'j> Model for PageBlocks<'j> {
    ghost use Rattle.press_job.specs.Job.{JobData};
    ghost use Rattle.press_feed.specs.Maker.{AreBlocks};

    ghost Value = { JobData };

    ghost view = { λ b. b.job.now };

    ghost invariant = { λ b. AreBlocks b.job.now b.left b.right };
}

impl<'j> PageBlocks<'j> {
    /// Allocates all buffers. No row is drawn.
    pub(crate) fn open(alloc: Global, job: &'j Job) -> Result<PageBlocks<'j>, NoMemory>
        ensures { IfOk result (λ blocks. blocks ≡ job.now) }
    {
        let left = SideRows::open(alloc, job, Side::Left, &Ink::ALL, AHEAD as usize)?;
        let right = SideRows::open(alloc, job, Side::Right, &Ink::ALL, AHEAD as usize)?;
        Ok(PageBlocks { job, left, right })
    }

    /// Draws a row of a plate that shows row `y` of the pages of a group: the two pages in an ink of the
    /// group, and nothing else. Rows in order cost least.
    pub(crate) fn draw(&mut self, group: &Group, ink: Ink, y: u32, bits: &mut [u8])
        requires ink { has_ink group.now ink ≡ true }
        requires within { y < self.old.plan.page_height }
        requires row { length bits.old ≡ row_size (plate_width self.old.plan) }
        ensures pages { DrawsPages self.old group.now ink y bits.new }
        ensures job { self.new ≡ self.old }
    {
        self.left.reach_row(group, ink, y);
        self.right.reach_row(group, ink, y);
        let left = self.left.rows(ink);
        let right = self.right.rows(ink);
        join_sides(self.job, group, ink, y, left, right, bits);
    }
}

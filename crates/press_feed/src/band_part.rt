// What one thread has of a band: the rows that it draws for the next band, and the frames that it packs of
// this one.
ghost use Rattle.std.specs.Prelude.{◌≡◌, ◌≤◌, ◌^◌, IfOk, IfSome, Some, length, slice_get};
ghost use Rattle.std.specs.Option.{ForSome};
ghost use Rattle.press_feed.specs.Band.{frame_bytes};
ghost use Rattle.press_feed.specs.Frames.{AreOf};
ghost use Rattle.press_feed.specs.SideBand.{AreRowsFor, IsKept, IsPartOf};
ghost use Rattle.press_job.specs.Rows.{plate_frames};

use crate::band_rows::BandRows;
use crate::drawn_rows::DrawnRows;
use crate::frames::Frames;
use crate::side::Side;
use crate::side_rows::SideRows;
use pr_base::{Ink, NoMemory};
use press_job::Job;
use std::alloc::Global;
use std::marker::Model;

/// Rows of one side in some inks, and frames. Contracts see the rows; the frames are of the same job.
#[derive(Drop)]
pub(crate) struct BandPart<'j> {
    job: &'j Job,
    inks: &'static [Ink],
    rows: SideRows<'j>,
    frames: Frames<'j>,
}

impl<'j> Model for BandPart<'j> {
    ghost use Rattle.press_feed.specs.SideBand.{IsBandPart};
    ghost use Rattle.press_feed.specs.SideRows.{SideRowsData};

    ghost Value = { SideRowsData };

    ghost view = { λ p. p.rows };

    ghost invariant = { λ p. IsBandPart p.job.now p.rows.job p.frames };
}

impl<'j> BandPart<'j> {
    /// Allocates room for `height` rows of a side in each of these inks, and for this many frames.
    pub(crate) fn open(
        alloc: Global,
        job: &'j Job,
        side: Side,
        inks: &'static [Ink],
        height: usize,
        frames: usize,
    ) -> Result<BandPart<'j>, NoMemory>
        requires height { height ≤ 65536 }
        requires frames { frames ≤ 65536 }
        ensures { IfOk result (IsPartOf job.now height) }
    {
        let frames = Frames::open(alloc, job, frames)?;
        let rows = SideRows::open(alloc, job, side, inks, height)?;
        Ok(BandPart {
            job,
            inks,
            rows,
            frames,
        })
    }

    /// Packs those of `most` frames from number `first` on whose rows are among those given, and draws the
    /// rows that come next.
    pub(crate) fn step(
        &mut self,
        first: u64,
        most: usize,
        drawn: &[DrawnRows<'_>],
        next: Option<BandRows>,
    )
        requires first { first ≤ 2 ^ 34 }
        requires drawn { AreOf self.old.job drawn.now }
        requires next { ForSome next (AreRowsFor self.old) }
        ensures { IsKept self.old self.new }
    {
        self.frames.pack(first, most, drawn);
        if let Some(rows) = next {
            self.draw(rows);
        }
    }

    /// Draws the rows of a step, if the group has any in these inks.
    fn draw(&mut self, rows: BandRows)
        requires { AreRowsFor self.old rows }
        ensures { IsKept self.old self.new }
    {
        let group = self.job.rows().group(rows.group);
        if self.inks.iter().any(|ink| group.has_ink(*ink)) {
            self.rows.draw(group, rows.first, rows.count);
        }
    }

    /// Exchanges the rows that are drawn for those among others that are alike.
    pub(crate) fn exchange(&mut self, others: &mut [DrawnRows<'j>])
        requires { AreOf self.old.job others.old }
        ensures kept { IsKept self.old self.new }
        ensures others { AreOf self.old.job others.new }
    {
        self.rows.exchange(others);
    }

    /// Lends frame `n`, if it is packed here.
    pub(crate) fn frame(&self, n: u64) -> Option<&[u8]>
        ensures frame { IfSome result (λ bytes.
            slice_get (plate_frames self.now.job.plan self.now.job.files) n ≡ Some bytes.now) }
        ensures len { IfSome result (λ bytes. length bytes.now ≡ frame_bytes self.now.job) }
    {
        self.frames.frame(n)
    }
}

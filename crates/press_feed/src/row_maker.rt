// The frames of a job, each made on request.
ghost use Rattle.std.specs.Prelude.{◌≡◌, ◌<◌, IfOk, Some, length, slice_get, true};

use crate::page_pair::PagePair;
use crate::pages::{Pages, open_blocks};
use crate::wanted::Wanted;
use pr_base::{Deal, NoMemory, row_bytes};
use press_job::Job;
use std::alloc::Global;
use std::marker::Model;
use tif_packbits::frame_row;

/// Makes any frame of a job. Frames in order cost least: then each row of a page is painted once for all its
/// inks. Contracts see the job.
#[derive(Drop)]
pub(crate) struct RowMaker<'j> {
    job: &'j Job,
    pages: Pages<'j>,
    /// A row of a plate, eight pixels per byte.
    bits: Vec<u8>,
}

impl<'j> Model for RowMaker<'j> {
    ghost use Rattle.press_job.specs.Job.{JobData};

    ghost Value = { JobData };

    ghost use Rattle.press_feed.specs.Maker.{IsMaker};

    ghost view = { λ m. m.job.now };

    ghost invariant = { λ m. IsMaker m.job.now m.pages.pair m.pages.blocks m.bits.items };
}

impl<'j> RowMaker<'j> {
    ghost use Rattle.press_feed.specs.Band.{frame_bytes};
    ghost use Rattle.press_job.specs.Rows.{plate_frames};

    /// Allocates all buffers.
    pub(crate) fn open(
        alloc: Global,
        job: &'j Job,
        wanted: Wanted<'j>,
    ) -> Result<RowMaker<'j>, NoMemory>
        ensures { IfOk result (λ maker. maker ≡ job.now) }
    {
        let bits = vec![in alloc; 0; row_bytes(job.shape().width)]?;
        let blocks = open_blocks(alloc, job)?;
        let pair = PagePair::open(alloc, job)?;
        Ok(RowMaker {
            job,
            pages: Pages {
                wanted,
                pair,
                blocks,
            },
            bits,
        })
    }

    /// The number of frames.
    pub(crate) fn total(&self) -> u64
        ensures total { result ≡ length (plate_frames self.now.plan self.now.files) }
    {
        self.job.total()
    }

    /// Returns whether the job has frame `n`, and rows of its plate are requested.
    pub(crate) fn is_wanted(&self, n: u64) -> bool
        ensures { result ≡ true → n < length (plate_frames self.now.plan self.now.files) }
    {
        if n >= self.total() {
            return false;
        }
        let rows = self.job.rows();
        let place = rows.row_at(n);
        self.pages.wanted.has(place.group, place.ink)
    }

    /// Makes frame `n`.
    pub(crate) fn make(&mut self, n: u64, frame: &mut [u8])
        requires n { n < length (plate_frames self.old.plan self.old.files) }
        requires frame { length frame.old ≡ frame_bytes self.old }
        ensures frame { slice_get (plate_frames self.old.plan self.old.files) n ≡ Some frame.new }
        ensures job { self.new ≡ self.old }
    {
        let job = self.job;
        let rows = job.rows();
        let place = rows.row_at(n);
        let group = rows.group(place.group);
        self.pages.draw_row(job, group, place, &mut self.bits);
        frame_row(&self.bits, frame);
    }
}

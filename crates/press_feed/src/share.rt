// A thread's share of a band: a buffer for some consecutive frames, and their maker.
ghost use Rattle.std.specs.Prelude.{All, ◌≡◌, ◌+◌, ◌<◌, ◌≤◌, ◌^◌, IfOk, Some, length, slice_get};
ghost use Rattle.press_feed.specs.Band.{HoldsFrom, IsShare, frame_bytes};

use crate::frame::{BandFrame, band_frames};
use crate::row_maker::RowMaker;
use crate::wanted::Wanted;
use pr_base::{Deal, NoMemory};
use press_job::Job;
use std::alloc::Global;
use std::marker::Model;

/// Some frames of a job. Contracts see the job and the frames.
#[derive(Drop)]
pub(crate) struct Share<'j> {
    maker: RowMaker<'j>,
    frames: Vec<BandFrame>,
}

impl<'j> Model for Share<'j> {
    ghost use Rattle.press_feed.specs.Band.{IsShare, ShareData};

    ghost Value = { ShareData };

    ghost view = { λ s. record { job = s.maker; frames = s.frames.items } };

    ghost invariant = { λ s. IsShare s.maker s.frames.items };
}

impl<'j> Share<'j> {
    ghost use Rattle.press_feed.specs.Band.{HoldsFrom, IsShareOf, frame_bytes};

    /// Allocates a share of `count` frames.
    pub(crate) fn open(
        alloc: Global,
        job: &'j Job,
        wanted: Wanted<'j>,
        count: usize,
    ) -> Result<Share<'j>, NoMemory>
        ensures { IfOk result (IsShareOf job.now count) }
    {
        let frames = band_frames(alloc, count, job.row_len())?;
        let maker = RowMaker::open(alloc, job, wanted)?;
        Ok(Share { maker, frames })
    }

    /// Makes the wanted frames from this number on, as far as the job has them.
    pub(crate) fn make_from(&mut self, first: u64)
        requires { first + length self.old.frames < 2 ^ 63 }
        ensures made { HoldsFrom self.old.job first self.new.frames }
        ensures same { IsShareOf self.old.job (length self.old.frames) self.new }
    {
        make_frames(&mut self.maker, first, &mut self.frames);
    }

    /// Lends the frame at an index of the share.
    pub(crate) fn frame(&self, place: usize) -> &BandFrame
        requires { place < length self.now.frames }
        ensures frame { slice_get self.now.frames place ≡ Some result.now }
        ensures len { length result.now.bytes ≡ frame_bytes self.now.job }
    {
        &self.frames[place]
    }
}

/// Makes the wanted frames from this number on, as far as the job has them.
fn make_frames(maker: &mut RowMaker<'_>, first: u64, frames: &mut [BandFrame])
    requires first { first + length frames.old < 2 ^ 63 }
    requires each { IsShare maker.old frames.old }
    ensures made { HoldsFrom maker.old first frames.new }
    ensures each { IsShare maker.old frames.new }
    ensures count { length frames.new ≡ length frames.old }
    ensures maker { maker.new ≡ maker.old }
{
    for place in 0..frames.len() {
        frames[place].make(first + place as u64, maker);
    }
}

// A band of frames, made by as many threads as it has shares.
ghost use Rattle.std.specs.Prelude.{All, ◌≡◌, ℕ, ◌+◌, ◌*◌, ◌<◌, ◌≤◌, ◌^◌, IfOk, IsTrue, Some, ◌↔◌, length};
ghost use Rattle.std.specs.Prelude.{slice_get, slice_index_or};
ghost use Rattle.press_feed.specs.Band.{AreMade, Covers, HoldsFrom, IsFrameAt, IsShareOf, ShareData, frame_bytes};
ghost use Rattle.press_job.specs.Rows.{plate_frames};

use crate::frame::BandFrame;
use crate::share::Share;
use crate::wanted::Wanted;
use pr_base::NoMemory;
use press_job::Job;
use std::alloc::Global;
use std::marker::Model;
use std::thread::{Threads, for_each_mut};

/// Consecutive frames of a job. Contracts see the job, the capacity in frames, the number of the first frame,
/// and the number after the last.
#[derive(Drop)]
pub(crate) struct Band<'j> {
    job: &'j Job,
    shares: Vec<Share<'j>>,
    /// The number of frames in a share.
    each: usize,
    first: u64,
    end: u64,
}

impl<'j> Model for Band<'j> {
    ghost use Rattle.std.specs.Prelude.{◌*◌, length};
    ghost use Rattle.press_feed.specs.Band.{BandData, IsBand};

    ghost Value = { BandData };

    ghost view = { λ b. record {
      job = b.job.now;
      size = length b.shares.items * b.each;
      first = b.first;
      end = b.end;
    } };

    ghost invariant = { λ b. IsBand b.job.now b.each b.first b.end b.shares.items };
}

impl<'j> Band<'j> {
    ghost use Rattle.press_feed.specs.Band.{IsFrameAt, frame_bytes};

    /// Returns an empty band for this many threads, with all its buffers. Without threads it stays empty.
    pub(crate) fn open(
        alloc: Global,
        job: &'j Job,
        wanted: Wanted<'j>,
        threads: usize,
        each: usize,
    ) -> Result<Band<'j>, NoMemory>
        requires threads { threads ≤ 65536 }
        requires each { (1 ≤ each) × (each ≤ 65536) }
        ensures { IfOk result (λ band. band ≡
            record { job = job.now; size = threads * each; first = 0; end = 0 }) }
    {
        let shares = open_shares(alloc, job, wanted, threads, each)?;
        Ok(Band {
            job,
            shares,
            each,
            first: 0,
            end: 0,
        })
    }

    /// Makes the wanted ones of the frames from this number on, as many as the band has room for and the job
    /// has. If a thread cannot be started, the calling thread makes its share.
    pub(crate) fn make<T: Threads + Sync>(&mut self, rt: &T, first: u64)
        requires { first ≤ 2684313600 }
        ensures { self.new ≡ record self.old { first = first; end = first + self.old.size } }
    {
        make_shares(rt, first, self.each, &mut self.shares);
        self.first = first;
        self.end = first + (self.shares.len() * self.each) as u64;
    }

    /// Whether the band covers frame `n`.
    pub(crate) fn has(&self, n: u64) -> bool
        ensures { IsTrue result ↔ Covers self.now n }
    {
        self.first <= n && n < self.end
    }

    /// Lends the buffer of frame `n`, which the band covers.
    pub(crate) fn frame(&self, n: u64) -> &BandFrame
        requires { Covers self.now n }
        ensures frame { IsFrameAt self.now.job n result.now }
        ensures len { length result.now.bytes ≡ frame_bytes self.now.job }
    {
        let place = (n - self.first) as usize;
        let share = &self.shares[place / self.each];
        share.frame(place % self.each)
    }

    /// Copies frame `n`, if the band has it, and returns whether it was.
    pub(crate) fn copy(&self, n: u64, row: &mut [u8]) -> bool
        requires { length row.old ≡ frame_bytes self.now.job }
        ensures frame { IsTrue result →
            slice_get (plate_frames self.now.job.plan self.now.job.files) n ≡ Some row.new }
        ensures len { length row.new ≡ length row.old }
    {
        if !self.has(n) {
            return false;
        }
        let frame = self.frame(n);
        if frame.is_made() {
            row.copy_from_slice(frame.bytes());
        }
        frame.is_made()
    }
}

/// Returns `count` shares of `each` frames.
fn open_shares<'j>(
    alloc: Global,
    job: &'j Job,
    wanted: Wanted<'j>,
    count: usize,
    each: usize,
) -> Result<Vec<Share<'j>>, NoMemory>
    ensures count { IfOk result (λ shares. length shares.items ≡ count) }
    ensures own { IfOk result (λ shares. All (IsShareOf job.now each) shares.items) }
{
    let mut shares = Vec::with_capacity(alloc, count)?;
    for _share in 0..count {
        shares.push(Share::open(alloc, job, wanted, each)?)?;
    }
    Ok(shares)
}

/// Makes all shares of a band from this frame on, each in a thread of its own.
fn make_shares<T: Threads + Sync>(rt: &T, first: u64, each: usize, shares: &mut [Share<'_>])
    requires first { first ≤ 2684313600 }
    requires each { each ≤ 65536 }
    requires most { length shares.old ≤ 65536 }
    requires own { (k : ℕ) (d : ShareData) → k < length shares.old →
        length (slice_index_or shares.old k d).frames ≡ each }
    ensures made { AreMade first each shares.old shares.new }
{
    for_each_mut(
        rt,
        shares,
        shares.len().max(1),
        &|k: usize, share: &mut Share<'_>|
            requires few { (k < 65536) × (each ≤ 65536) × (first ≤ 2684313600) }
            requires own { length share.now.frames ≡ each }
            ensures made { HoldsFrom share.entry.now.job (first + k * each) share.exit.now.frames }
            ensures same { IsShareOf share.entry.now.job each share.exit.now }
        { share.make_from(first + (k * each) as u64) },
    );
}

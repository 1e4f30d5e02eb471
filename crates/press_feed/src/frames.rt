// Some consecutive frames of a job, packed from drawn rows.
ghost use Rattle.std.specs.Prelude.{◌≡◌, ◌+◌, ◌<◌, ◌≤◌, ◌^◌, IfOk, IfSome, Some, length, slice_get, true};
ghost use Rattle.pr_base.specs.Row.{row_size};
ghost use Rattle.plan_json.specs.Data.{plate_height, plate_width};
ghost use Rattle.plan_json.specs.Plan.{IsPlan};
ghost use Rattle.press_feed.specs.Band.{HoldsFrom, IsFrameAt, IsShare, frame_bytes};
ghost use Rattle.press_feed.specs.Frames.{AreOf};
ghost use Rattle.press_job.specs.Rows.{plate_frames, plate_row};

use crate::drawn_rows::DrawnRows;
use crate::frame::{BandFrame, band_frames};
use crate::pages::page_row;
use crate::plate_row::{join_sides, rows_with};
use crate::side::Side;
use plan_pages::mark_row;
use plan_rows::{Group, RowPlace};
use pr_base::{Deal, NoMemory, row_bytes};
use press_job::Job;
use std::alloc::Global;
use std::marker::Model;

/// Frames of a job from a number on, some of which are packed. Contracts see the job.
#[derive(Drop)]
pub(crate) struct Frames<'j> {
    job: &'j Job,
    first: u64,
    frames: Vec<BandFrame>,
    /// A row of a plate, eight pixels per byte.
    bits: Vec<u8>,
}

impl<'j> Model for Frames<'j> {
    ghost use Rattle.press_feed.specs.Frames.{AreFrames};
    ghost use Rattle.press_job.specs.Job.{JobData};

    ghost Value = { JobData };

    ghost view = { λ f. f.job.now };

    ghost invariant = { λ f. AreFrames f.job.now f.first f.frames.items f.bits.items };
}

impl<'j> Frames<'j> {
    /// Allocates room for this many frames. None is packed.
    pub(crate) fn open(alloc: Global, job: &'j Job, room: usize) -> Result<Frames<'j>, NoMemory>
        requires { room ≤ 65536 }
        ensures { IfOk result (λ frames. frames ≡ job.now) }
    {
        let frames = band_frames(alloc, room, job.row_len())?;
        let bits = vec![in alloc; 0; row_bytes(job.shape().width)]?;
        Ok(Frames {
            job,
            first: 0,
            frames,
            bits,
        })
    }

    /// Packs those frames of the `most` from number `first` on whose rows are among those given.
    pub(crate) fn pack(&mut self, first: u64, most: usize, rows: &[DrawnRows<'_>])
        requires rows { AreOf self.old rows.now }
        requires first { first ≤ 2 ^ 34 }
        ensures { self.new ≡ self.old }
    {
        let end = first.saturating_add(most as u64).min(self.job.total());
        pack_frames(self.job, first, end, rows, &mut self.bits, &mut self.frames);
        self.first = first;
    }

    /// Lends frame `n`, if it is packed.
    pub(crate) fn frame(&self, n: u64) -> Option<&[u8]>
        ensures frame { IfSome result (λ bytes.
            slice_get (plate_frames self.now.plan self.now.files) n ≡ Some bytes.now) }
        ensures len { IfSome result (λ bytes. length bytes.now ≡ frame_bytes self.now) }
    {
        if n < self.first || n - self.first >= self.frames.len() as u64 {
            return None;
        }
        let frame = &self.frames[(n - self.first) as usize];
        if !frame.is_made() {
            return None;
        }
        Some(frame.bytes())
    }
}

/// Packs those frames from number `first` to below `end` whose rows are among those given, each in its
/// buffer.
fn pack_frames(
    job: &Job,
    first: u64,
    end: u64,
    rows: &[DrawnRows<'_>],
    bits: &mut [u8],
    frames: &mut [BandFrame],
)
    requires first { first + length frames.old < 2 ^ 63 }
    requires end { end ≤ length (plate_frames job.now.plan job.now.files) }
    requires rows { AreOf job.now rows.now }
    requires bits { length bits.old ≡ row_size (plate_width job.now.plan) }
    requires each { IsShare job.now frames.old }
    ensures made { HoldsFrom job.now first frames.new }
    ensures each { IsShare job.now frames.new }
    ensures count { length frames.new ≡ length frames.old }
{
    for place in 0..frames.len() {
        let n = first + place as u64;
        pack_frame(job, n, n < end, rows, bits, &mut frames[place]);
    }
}

/// Packs frame `n`, if it is wanted and its row is among those given.
fn pack_frame(
    job: &Job,
    n: u64,
    is_wanted: bool,
    rows: &[DrawnRows<'_>],
    bits: &mut [u8],
    frame: &mut BandFrame,
)
    requires n { is_wanted ≡ true → n < length (plate_frames job.now.plan job.now.files) }
    requires rows { AreOf job.now rows.now }
    requires bits { length bits.old ≡ row_size (plate_width job.now.plan) }
    requires frame { length frame.old.bytes ≡ frame_bytes job.now }
    ensures frame { IsFrameAt job.now n frame.new }
    ensures len { length frame.new.bytes ≡ length frame.old.bytes }
{
    frame.forget();
    if !is_wanted {
        return;
    }
    let place = job.rows().row_at(n);
    let group = job.rows().group(place.group);
    if join_row(job, group, place, rows, bits) {
        frame.pack(bits);
    }
}

/// Draws a row of a plate of a group, if its rows are among those given: the two pages at their positions,
/// the marks, and nothing else.
fn join_row(
    job: &Job,
    group: &Group,
    place: RowPlace,
    rows: &[DrawnRows<'_>],
    bits: &mut [u8],
) -> bool
    requires y { place.y < plate_height job.now.plan }
    requires rows { AreOf job.now rows.now }
    requires bits { length bits.old ≡ row_size (plate_width job.now.plan) }
    ensures row { result ≡ true → bits.new
        ≡ plate_row job.now.plan job.now.files group.now.left group.now.right place.ink place.y }
    ensures plan { IsPlan job.now.plan }
{
    let Some(y) = page_row(job.plan(), job.shape(), place.y) else {
        return false;
    };
    let Some(left) = rows_with(rows, Side::Left, place.ink, group.left, y) else {
        return false;
    };
    let Some(right) = rows_with(rows, Side::Right, place.ink, group.right, y) else {
        return false;
    };
    join_sides(job, group, place.ink, y, left, right, bits);
    mark_row(job.plan(), place.ink, place.y, bits);
    true
}

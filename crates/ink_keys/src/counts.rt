// The counts of all keys of an edition's plates, row by row.
ghost use Rattle.std.specs.Prelude.{◌≡◌, ◌<◌, ◌≤◌, ◌+◌, ◌-◌, ◌*◌, ◌/◌, ◌^◌, ℕ, IfOk, length, map, replicate};
ghost use Rattle.std.specs.Prelude.{slice_index};
ghost use Rattle.std.specs.List.{range_with_len};
ghost use Rattle.pr_base.specs.Row.{row_size};
ghost use Rattle.tif_packbits.specs.Frame.{IsFrame, framed_row};
ghost use Rattle.ink_keys.specs.Keys.{dots_between, first_column};
ghost use Rattle.ink_keys.specs.Counts.{AddsRow, keys_before, no_counts, number_at};

use crate::dots::{dots_in, room_for};
use crate::key::first_of;
use plan_rows::{RowPlace, RowPlan};
use pr_base::{INKS, Ink, NoMemory, row_bytes};
use ring_lanes::Held;
use std::alloc::Global;
use std::marker::Model;
use tif_packbits::{Unpacker, framed};

/// How many pixels are 1 at each key, for each group and ink of a row plan. All memory is allocated when it
/// is made. Contracts see the number of groups that it was made for, the width, the number of keys and the
/// counts.
#[derive(Drop)]
pub struct Counts {
    groups: usize,
    width: u32,
    keys: u32,
    numbers: Vec<u64>,
    /// The first column of each key, followed by the width.
    firsts: Vec<u32>,
    /// A buffer for one unpacked row.
    row: Vec<u8>,
}

impl Model for Counts {
    ghost use Rattle.ink_keys.specs.Counts.{CountsData, IsCounts};

    ghost Value = { CountsData };

    ghost view = { λ c. record {
      groups = c.groups;
      width = c.width;
      keys = c.keys;
      numbers = c.numbers.items;
    } };

    ghost invariant = { λ c.
        IsCounts c.groups c.width c.keys c.numbers.items c.firsts.items c.row.items };
}

impl Counts {
    /// Makes zero counts for each group and ink of a row plan, whose rows have `width` pixels and `keys`
    /// keys.
    pub fn new(alloc: Global, rows: &RowPlan, width: u32, keys: u32) -> Result<Counts, NoMemory>
        requires wide { 1 ≤ width }
        requires narrow { width ≤ 65535 }
        requires some_key { 1 ≤ keys }
        requires few_keys { keys ≤ 64 }
        ensures zero { IfOk result (λ counts. counts ≡ no_counts (length rows.now.groups) width keys) }
    {
        let groups = rows.groups().len();
        let numbers = zeros(alloc, groups * INKS * keys as usize)?;
        let firsts = firsts_of(alloc, width, keys)?;
        let row = room(alloc, width)?;
        Ok(Counts {
            groups,
            width,
            keys,
            numbers,
            firsts,
            row,
        })
    }

    /// Adds the 1 pixels of a row, whose place is `place`, to the keys of its group and ink.
    pub fn add(&mut self, place: RowPlace, held: &Held)
        requires group { place.group < self.old.groups }
        requires frame { IsFrame held.now.bytes }
        requires size { length (framed_row held.now.bytes) ≡ row_size self.old.width }
        requires room { (place : ℕ) → slice_index self.old.numbers place ≤ 2 ^ 64 - 65536 }
        ensures { AddsRow place.group place.ink (framed_row held.now.bytes) self.old self.new }
    {
        let start = self.start(place.group, place.ink);
        unpack_front(held.bytes(), self.width, &mut self.row);
        add_dots(&self.row, &self.firsts, &mut self.numbers, start);
    }

    /// Returns the counts of a group in an ink, key by key. Each of the five inks has counts, even if the
    /// group does not print it.
    pub fn of(&self, group: usize, ink: Ink) -> &[u64]
        requires { group < self.now.groups }
        ensures count { length result.now ≡ self.now.keys }
        ensures numbers { (k : ℕ) → k < self.now.keys
            → slice_index result.now k ≡ number_at self.now group ink k }
    {
        let start = self.start(group, ink);
        &self.numbers[start..start + self.keys as usize]
    }

    /// Returns the index at which the counts of a group in an ink begin.
    fn start(&self, group: usize, ink: Ink) -> usize
        requires { group < self.now.groups }
        ensures start { result ≡ keys_before self.now.keys group ink }
        ensures within { result + self.now.keys ≤ length self.now.numbers }
    {
        let keys = self.keys as usize;
        (group * INKS + ink.slot()) * keys
    }
}

/// Returns `count` zeros.
fn zeros(alloc: Global, count: usize) -> Result<Vec<u64>, NoMemory>
    requires { count ≤ 2621440 }
    ensures { IfOk result (λ numbers. numbers.items ≡ replicate count 0) }
{
    Ok(vec![in alloc; 0; count]?)
}

/// Returns a buffer for one row of `width` pixels.
fn room(alloc: Global, width: u32) -> Result<Vec<u8>, NoMemory>
    requires { width ≤ 65535 }
    ensures { IfOk result (λ row. length row.items ≡ 8 * (width / 64 + 1)) }
{
    Ok(vec![in alloc; 0; room_for(width)]?)
}

/// Returns the first column of each key, followed by the width.
fn firsts_of(alloc: Global, width: u32, keys: u32) -> Result<Vec<u32>, NoMemory>
    requires narrow { width ≤ 65535 }
    requires some_key { 1 ≤ keys }
    requires few_keys { keys ≤ 64 }
    ensures { IfOk result (λ firsts.
        firsts.items ≡ map (first_column width keys) (range_with_len 0 (keys + 1))) }
{
    let mut firsts = Vec::new(alloc);
    for k in 0..keys + 1 {
        firsts.push(first_of(width, keys, k))?;
    }
    Ok(firsts)
}

/// Unpacks the row of a frame, `width` pixels, into the front of the row buffer.
fn unpack_front(frame: &[u8], width: u32, room: &mut [u8])
    requires frame { IsFrame frame.now }
    requires size { length (framed_row frame.now) ≡ row_size width }
    requires room { length room.old ≡ 8 * (width / 64 + 1) }
    ensures count { length room.new ≡ length room.old }
    ensures dots { (from to : ℕ) → to ≤ width
        → dots_between room.new from to ≡ dots_between (framed_row frame.now) from to }
{
    unpack(frame, &mut room[..row_bytes(width)]);
}

/// Unpacks the row of a frame into a slice of exactly its length.
#[tactic(auto, using(crate::proofs::Adding::unpacked))]
fn unpack(frame: &[u8], row: &mut [u8])
    requires frame { IsFrame frame.now }
    requires size { length (framed_row frame.now) ≡ length row.old }
    ensures { row.new ≡ framed_row frame.now }
{
    let _filled = Unpacker::new(framed(frame)).fill(row);
}

/// Adds to the count of each key, from index `start` on, the 1 pixels from its first column to before that of
/// the next key.
fn add_dots(row: &[u8], firsts: &[u32], numbers: &mut [u64], start: usize)
    requires firsts { 1 ≤ length firsts.now }
    requires few { length firsts.now ≤ 65 }
    requires within { start + (length firsts.now - 1) ≤ length numbers.old }
    requires narrow { (k : ℕ) → slice_index firsts.now k ≤ 65535 }
    requires order { (k : ℕ) → k + 1 < length firsts.now
        → slice_index firsts.now k ≤ slice_index firsts.now (k + 1) }
    requires inside { (k : ℕ) → slice_index firsts.now k / 64 < length row.now / 8 }
    requires room { (place : ℕ) → slice_index numbers.old place ≤ 2 ^ 64 - 65536 }
    ensures count { length numbers.new ≡ length numbers.old }
    ensures here { (k : ℕ) → k + 1 < length firsts.now → slice_index numbers.new (start + k)
        ≡ slice_index numbers.old (start + k)
        + dots_between row.now (slice_index firsts.now k) (slice_index firsts.now (k + 1)) }
    ensures below { (place : ℕ) → place < start
        → slice_index numbers.new place ≡ slice_index numbers.old place }
    ensures above { (place : ℕ) → start + (length firsts.now - 1) ≤ place
        → slice_index numbers.new place ≡ slice_index numbers.old place }
{
    for k in 0..firsts.len() - 1 {
        numbers[start + k] += dots_in(row, firsts[k] as usize, firsts[k + 1] as usize);
    }
}

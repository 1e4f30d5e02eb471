// The strips of a plate as its packed rows arrive, and the bytes after the rows, which follow from them.
ghost use Rattle.std.specs.Prelude.{◌≡◌, ◌+◌, ◌<◌, ◌≤◌, ◌^◌, ◌==◌, if◌then◌else◌, IfOk, length, replicate};
ghost use Rattle.std.specs.Prelude.{slice_index, take};
ghost use Rattle.tif_plate.specs.Plate.{IsSide, IsDpi, strip_count};
ghost use Rattle.tif_plate.specs.Tail.{tail_bytes, tail_offset};
ghost use Rattle.plate_bytes.specs.Strips.{counted};

use pr_base::NoMemory;
use std::alloc::Global;
use std::marker::Model;
use tif_plate::{Sides, Tail, plate_tail, rows_per_strip, strips};

/// The maximum length of the bytes after a plate's rows, without the eight bytes per strip.
const MOST_TAIL: usize = 167;

/// The byte counts of a plate's strips so far, and a buffer for the bytes after its rows. After the last row
/// of a plate the next plate begins.
#[derive(Drop)]
pub struct PlateStrips {
    sides: Sides,
    /// The y of the next row: 0 before the first and after the last.
    next: u32,
    counts: Vec<u32>,
    room: Vec<u8>,
}

impl Model for PlateStrips {
    ghost use Rattle.plate_bytes.specs.Strips.{AreStrips, StripState, strips_of};

    ghost Value = { StripState };

    ghost view = { λ s. strips_of s.sides s.next s.counts.items s.room.items };

    ghost invariant = { λ s. AreStrips (strips_of s.sides s.next s.counts.items s.room.items) };
}

impl PlateStrips {
    ghost use Rattle.plate_bytes.specs.Strips.{with_row as with_next_row, without_rows};

    /// Returns the strips of a plate without rows.
    pub fn new(alloc: Global, sides: Sides) -> Result<PlateStrips, NoMemory>
        requires width { IsSide sides.width }
        requires height { IsSide sides.height }
        requires dpi { IsDpi sides.dpi }
        ensures sides { IfOk result (λ made. made.sides ≡ sides) }
        ensures next { IfOk result (λ made. made.next ≡ 0) }
        ensures counts { IfOk result (λ made.
            made.counts ≡ replicate (strip_count sides.width sides.height) 0) }
    {
        let count = strips(sides.width, sides.height) as usize;
        let counts = vec![in alloc; 0; count]?;
        let room = vec![in alloc; 0; MOST_TAIL + 8 * count]?;
        Ok(PlateStrips {
            sides,
            next: 0,
            counts,
            room,
        })
    }

    /// Returns the sides of the plate.
    pub fn sides(&self) -> Sides
        ensures sides { result ≡ self.now.sides }
        ensures width { IsSide result.width }
        ensures height { IsSide result.height }
        ensures dpi { IsDpi result.dpi }
    {
        self.sides
    }

    /// Returns the y of the next row: 0 before the first row of a plate and after its last.
    pub fn next_row(&self) -> u32
        ensures { result ≡ self.now.next }
    {
        self.next
    }

    /// Removes all rows.
    pub fn clear(&mut self)
        ensures { self.new ≡ without_rows self.old }
    {
        self.next = 0;
        self.counts.as_mut_slice().fill(0);
    }

    /// Counts the next row, of `bytes` packed bytes, into its strip. The first row of a plate begins with
    /// strips without bytes.
    pub fn count(&mut self, bytes: usize)
        requires { bytes ≤ 8256 }
        ensures { self.new ≡ with_next_row bytes self.old }
    {
        let strip = (self.next / rows_per_strip(self.sides.width)) as usize;
        add(&mut self.counts, self.next, strip, bytes as u32);
        self.next = if self.next == self.sides.height - 1 {
            0
        } else {
            self.next + 1
        };
    }

    /// Writes the bytes after the rows to the buffer. Returns their length and the offset of the directory.
    pub fn write_tail(&mut self) -> Tail
        ensures bytes { take result.len self.new.room ≡ tail_bytes
            self.old.sides.width self.old.sides.height self.old.sides.dpi self.old.counts }
        ensures within { result.len ≤ length self.new.room }
        ensures at { result.at ≡ tail_offset self.old.counts }
        ensures rest { self.new ≡ record self.old { room = self.new.room } }
    {
        plate_tail(
            self.sides.width,
            self.sides.height,
            self.sides.dpi,
            &self.counts,
            self.room.as_mut_slice(),
        )
    }

    /// Lends the first `len` bytes of the buffer.
    pub fn tail(&self, len: usize) -> &[u8]
        requires { len ≤ length self.now.room }
        ensures { result.now ≡ take len self.now.room }
    {
        &self.room.as_slice()[..len]
    }
}

/// Adds the packed bytes of row `y` to its strip. Row 0 begins with strips without bytes.
fn add(counts: &mut Vec<u32>, y: u32, strip: usize, bytes: u32)
    requires strip { strip < length counts.old.items }
    requires fits { (if y == 0 then 0 else slice_index counts.old.items strip) + bytes < 2 ^ 32 }
    ensures { counts.new.items ≡ counted y strip bytes counts.old.items }
{
    if y == 0 {
        counts.as_mut_slice().fill(0);
    }
    counts[strip] += bytes;
}

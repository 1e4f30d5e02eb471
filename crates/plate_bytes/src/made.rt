// A plate in memory: the front and the packed rows as they arrive, then the bytes after them.
ghost use Rattle.std.specs.Prelude.{◌≡◌, ◌+◌, ◌^◌, ◌<◌, ◌≤◌, ◌∷◌, [], ◌++◌, ℕ, List, IfOk, OnOk, OnErr};
ghost use Rattle.std.specs.Prelude.{length};
ghost use Rattle.tif_plate.specs.Plate.{IsSide, IsDpi};
ghost use Rattle.tif_plate.specs.Tail.{tail_bytes, tail_offset};
ghost use Rattle.pr_base.specs.Offset.{with_offset};
ghost use Rattle.plate_bytes.specs.Places.{IsSeam};

use crate::PlateStrips;
use byteorder::{ByteOrder, LittleEndian};
use pr_base::NoMemory;
use std::alloc::Global;
use std::marker::Model;
use tif_plate::{Sides, plate_front};

/// The bytes before the first row.
const FRONT: u64 = 8;

/// A plate in memory, which receives its packed rows from top to bottom and then holds the bytes of the
/// complete file. The header stores the offset of the directory, which follows the rows and so depends on
/// their packed length; the file can't be written out in order before all rows are there. The memory can be
/// reused for a plate of the same size.
#[derive(Drop)]
pub struct PlateBytes {
    strips: PlateStrips,
    bytes: Vec<u8>,
    /// The offset of the end of each packed row.
    ends: Vec<u32>,
}

impl Model for PlateBytes {
    ghost use Rattle.std.specs.Prelude.{◌≡◌, ◌<◌, length};
    ghost use Rattle.plate_bytes.specs.Made.{IsPlate, PlateState, plate_of};

    ghost Value = { PlateState };

    ghost view = { λ p. plate_of p.strips p.bytes.items p.ends.items };

    ghost invariant = { λ p. IsPlate (plate_of p.strips p.bytes.items p.ends.items)
        × (length p.ends.items < p.strips.sides.height → p.strips.next ≡ length p.ends.items) };
}

impl PlateBytes {
    ghost use Rattle.plate_bytes.specs.Made.{CanTake, HasAllRows, IsAlike, IsFull, TakesRow, so_far, whole};
    ghost use Rattle.plate_bytes.specs.Places.{row_ends, row_holding};

    /// Creates a plate without rows, `width` by `height` pixels at `dpi` pixels per inch.
    pub fn new(alloc: Global, width: u32, height: u32, dpi: u32) -> Result<PlateBytes, NoMemory>
        requires width { IsSide width }
        requires height { IsSide height }
        requires dpi { IsDpi dpi }
        ensures { IfOk result (λ plate. plate ≡ so_far width height dpi []) }
    {
        let mut bytes = Vec::new(alloc);
        bytes.extend_from_slice(&plate_front())?;
        let strips = PlateStrips::new(alloc, Sides { width, height, dpi })?;
        Ok(PlateBytes {
            strips,
            bytes,
            ends: Vec::new(alloc),
        })
    }

    /// Removes all rows but keeps the allocated memory.
    pub fn restart(&mut self) -> Result<(), NoMemory>
        ensures rows { OnOk result
            (self.new ≡ so_far self.old.width self.old.height self.old.dpi []) }
        ensures sides { IsAlike self.old self.new }
    {
        self.bytes.clear();
        self.bytes.extend_from_slice(&plate_front())?;
        self.strips.clear();
        self.ends.clear();
        Ok(())
    }

    /// Appends a packed row.
    pub fn push(&mut self, packed: &[u8]) -> Result<(), NoMemory>
        requires { CanTake self.old packed.now }
        ensures rows { OnOk result ((rows : List (List ℕ)) (row : List ℕ) →
            TakesRow self.old rows row packed.now →
            self.new ≡ so_far self.old.width self.old.height self.old.dpi (rows ++ row ∷ [])) }
        ensures sides { IsAlike self.old self.new }
    {
        append(&mut self.bytes, &mut self.ends, packed)?;
        self.strips.count(packed.len());
        Ok(())
    }

    /// Appends the bytes after the rows and writes the offset of the directory.
    pub fn finish(&mut self) -> Result<(), NoMemory>
        requires { IsFull self.old }
        ensures file { OnOk result ((rows : List (List ℕ)) → HasAllRows self.old rows →
            self.new ≡ whole self.old.width self.old.height self.old.dpi rows) }
        ensures sides { IsAlike self.old self.new }
    {
        close(&mut self.strips, &mut self.bytes)?;
        Ok(())
    }

    /// Returns the bytes written so far.
    pub fn bytes(&self) -> &[u8]
        ensures { result.now ≡ self.now.bytes }
    {
        &self.bytes
    }

    /// Returns the row whose packing contains the byte at offset `at`. Returns `None` before byte 8 and
    /// from the end of the rows on: the byte that pads the directory to an even offset, and all bytes after
    /// it, belong to no row.
    #[tactic(auto, using(crate::proofs::Seams::seams))]
    pub fn row_of(&self, at: u64) -> Option<u32>
        ensures { (rows : List (List ℕ)) → self.now.ends ≡ row_ends rows → result ≡ row_holding rows at }
    {
        if at < FRONT {
            return None;
        }
        let row = ends_within(&self.ends, at);
        if row < self.ends.len() {
            Some(row as u32)
        } else {
            None
        }
    }
}

/// Appends a packed row and records the offset of its end.
fn append(bytes: &mut Vec<u8>, ends: &mut Vec<u32>, packed: &[u8]) -> Result<(), NoMemory>
    requires { length bytes.old.items + length packed.now < 2 ^ 32 }
    ensures bytes { OnOk result (bytes.new.items ≡ bytes.old.items ++ packed.now) }
    ensures ends { OnOk result
        (ends.new.items ≡ ends.old.items ++ length (bytes.old.items ++ packed.now) ∷ []) }
    ensures kept { OnErr result (ends.new.items ≡ ends.old.items) }
{
    bytes.extend_from_slice(packed)?;
    ends.push(bytes.len() as u32)?;
    Ok(())
}

/// Appends the bytes after the rows and writes the offset of the directory.
fn close(strips: &mut PlateStrips, bytes: &mut Vec<u8>) -> Result<(), NoMemory>
    requires { 8 ≤ length bytes.old.items }
    ensures bytes { OnOk result (bytes.new.items ≡ with_offset (tail_offset strips.old.counts)
        (bytes.old.items ++ tail_bytes strips.old.sides.width strips.old.sides.height strips.old.sides.dpi
        strips.old.counts)) }
    ensures strips { strips.new ≡ record strips.old { room = strips.new.room } }
{
    let tail = strips.write_tail();
    bytes.extend_from_slice(strips.tail(tail.len))?;
    put_offset(bytes, tail.at);
    Ok(())
}

/// Writes the offset of the directory into a plate.
fn put_offset(plate: &mut [u8], place: u32)
    requires { 8 ≤ length plate.old }
    ensures { plate.new ≡ with_offset place plate.old }
{
    LittleEndian::write_u32(&mut plate[4..8], place);
}

/// Returns the number of rows that end at or before an offset, by binary search.
fn ends_within(ends: &[u32], at: u64) -> usize
    requires { 8 ≤ at }
    ensures { IsSeam ends.now at result }
{
    let mut low = 0;
    let mut high = ends.len();
    while low < high {
        let middle = low + (high - low) / 2;
        if u64::from(ends[middle]) <= at {
            low = middle + 1;
        } else {
            high = middle;
        }
    }
    low
}

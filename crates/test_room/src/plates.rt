// Plates of a few pixels, and what racks have after a command.

use pr_base::NoMemory;
use pr_rack::MemRack;
use ring_lanes::Source;
use std::alloc::Global;
use worked_files::{Sides, plate_of};

/// A plate: its path, its sides, and its packed rows with what follows them up to the directory.
#[derive(Clone, Copy)]
pub struct Plate<'a> {
    pub path: &'a str,
    pub sides: Sides,
    pub rows: &'a [u8],
}

/// Whether a file of a rack is this plate.
fn is_plate(alloc: Global, path: &str, bytes: &[u8], plate: &Plate<'_>) -> Result<bool, NoMemory> {
    let wanted = plate_of(alloc, plate.sides, plate.rows)?;
    Ok(path == plate.path && bytes == wanted.as_slice())
}

/// Whether a rack has exactly these plates.
pub fn has_plates(alloc: Global, rack: &MemRack, plates: &[Plate<'_>]) -> Result<bool, NoMemory> {
    let mut same = rack.files().len() == plates.len();
    for (file, plate) in rack.files().iter().zip(plates) {
        same &= is_plate(alloc, file.0.as_str(), &file.1, plate)?;
    }
    Ok(same)
}

/// Whether racks, from the first on, have exactly these plates, one list per rack.
pub fn have_plates(
    alloc: Global,
    racks: &[MemRack],
    plates: &[&[Plate<'_>]],
) -> Result<bool, NoMemory> {
    let mut same = true;
    for (rack, plates) in racks.iter().zip(plates) {
        same &= has_plates(alloc, rack, plates)?;
    }
    Ok(same)
}

/// Whether a rack took the rows with these numbers, in this order, from this source.
pub fn took_rows(rack: &MemRack, source: Source, rows: &[u64]) -> bool {
    if rack.taken().len() != rows.len() {
        return false;
    }
    for (taken, row) in rack.taken().iter().zip(rows) {
        if taken.0 != *row || taken.1 != source {
            return false;
        }
    }
    true
}

/// Whether racks, from the first on, took the rows with these numbers, in this order, from these sources.
pub fn took(racks: &[MemRack], rows: &[(Source, &[u64])]) -> bool {
    for (rack, (source, rows)) in racks.iter().zip(rows) {
        if !took_rows(rack, *source, rows) {
            return false;
        }
    }
    true
}

/// Whether no rack took a row or has a file.
pub fn are_empty(racks: &[MemRack]) -> bool {
    racks
        .iter()
        .all(|rack| rack.files().is_empty() && rack.taken().is_empty())
}

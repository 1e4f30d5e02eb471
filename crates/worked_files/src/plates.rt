// Plates of a few pixels, and files with some bytes changed.
use crate::files::PLATE;
use pr_base::NoMemory;
use std::alloc::Global;

/// The sides of a plate in pixels.
#[derive(Clone, Copy)]
pub enum Sides {
    /// 4 by 1. The row is packed to two bytes.
    FourByOne,
    /// 8 by 2. Each row is packed to two bytes.
    EightByTwo,
    /// 16 by 1. The row is packed to three bytes, and a pad byte follows.
    SixteenByOne,
    /// 16 by 2. Each row is packed to three bytes.
    SixteenByTwo,
}

impl Sides {
    /// Returns what differs from `PLATE` outside the rows: offsets in the plate, and bytes.
    fn changes(self) -> &'static [(usize, u8)] {
        match self {
            Sides::FourByOne => &[],
            Sides::EightByTwo => &EIGHT_BY_TWO,
            Sides::SixteenByOne => &SIXTEEN_BY_ONE,
            Sides::SixteenByTwo => &SIXTEEN_BY_TWO,
        }
    }
}

/// The offset of the directory, ImageWidth, ImageLength, StripByteCounts, XResolution and YResolution.
const EIGHT_BY_TWO: [(usize, u8); 6] = [
    (4, 12),
    (22, 8),
    (34, 2),
    (118, 4),
    (130, 0xA2),
    (142, 0xAA),
];

/// The same with RowsPerStrip in place of ImageLength.
const SIXTEEN_BY_ONE: [(usize, u8); 7] = [
    (4, 12),
    (22, 16),
    (106, 0),
    (107, 16),
    (118, 3),
    (130, 0xA2),
    (142, 0xAA),
];

/// The same with both.
const SIXTEEN_BY_TWO: [(usize, u8); 8] = [
    (4, 14),
    (24, 16),
    (36, 2),
    (108, 0),
    (109, 16),
    (120, 6),
    (132, 0xA4),
    (144, 0xAC),
];

/// Returns the file of a plate: the front, the directory and the resolutions of `PLATE` with other numbers.
/// The rows are packed, with what follows them up to the directory.
pub fn plate_of(alloc: Global, sides: Sides, rows: &[u8]) -> Result<Vec<u8>, NoMemory> {
    let mut plate = Vec::new(alloc);
    for part in [&PLATE[..8], rows, &PLATE[10..]] {
        plate.extend_from_slice(part)?;
    }
    change(&mut plate, sides.changes());
    Ok(plate)
}

/// Returns the file with some bytes changed.
pub fn changed<const N: usize>(file: [u8; N], changes: &[(usize, u8)]) -> [u8; N] {
    let mut file = file;
    change(&mut file, changes);
    file
}

/// Sets bytes at offsets in a file.
fn change(file: &mut [u8], changes: &[(usize, u8)]) {
    for (at, with) in changes {
        if let Some(byte) = file.get_mut(*at) {
            *byte = *with;
        }
    }
}

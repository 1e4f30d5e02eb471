// Counts the dots of finished plates from their packed rows.
ghost use Rattle.std.specs.Prelude.{◌≡◌, ◌*◌, ◌≤◌, ◌<◌, ℕ, List, All, count_ones, length, map, sum_by};
ghost use Rattle.tif_plate.specs.Plate.{IsSide, plate_file};
ghost use Rattle.drill_mem.specs.Dots.{HasSides, all_dots, bytes_of, file_dots, ones_in as ones_of};
ghost use Rattle.drill_mem.specs.Dots.{row_bytes_of};

use pr_base::{PathText, row_bytes};
use tif_packbits::Unpacker;

/// The number of bytes of a plate before its packed rows.
const FRONT: usize = 8;

/// Counts the dots of plates of this width and height, from the packed rows in their files.
pub fn count_dots(files: &[(PathText, Vec<u8>)], width: u32, height: u32) -> u64
    requires width { IsSide width }
    requires height { IsSide height }
    requires count { length files.now < 4294967296 }
    requires plates { All (λ file. 8 ≤ length file) (bytes_of files.now) }
    // The 1 bits of the rows, for any rows of which the files are plates.
    ensures { (dpi : ℕ) (plates : List (List (List ℕ)))
        → bytes_of files.now ≡ map (plate_file width dpi) plates
        → All (HasSides width height) plates → result ≡ all_dots plates }
{
    dots_in(files, row_bytes(width) as u32 * height)
}

/// Counts the 1 bits of the first `bytes` bytes of the rows of each file.
fn dots_in(files: &[(PathText, Vec<u8>)], bytes: u32) -> u64
    requires count { length files.now < 4294967296 }
    requires bytes { bytes < 536870912 }
    requires plates { All (λ file. 8 ≤ length file) (bytes_of files.now) }
    ensures { result ≡ sum_by (file_dots bytes) (bytes_of files.now) }
{
    let mut dots = 0;
    for file in files {
        dots += dots_of(&file.1, bytes);
    }
    dots
}

/// Counts the 1 bits of the first `bytes` bytes of the rows of a file.
fn dots_of(file: &[u8], bytes: u32) -> u64
    requires { 8 ≤ length file.now }
    ensures dots { result ≡ file_dots bytes file.now }
    ensures most { result ≤ 8 * bytes }
{
    ones_in(&file[FRONT..], bytes)
}

/// Counts the 1 bits of the first `count` bytes that packed bytes expand to.
fn ones_in(packed: &[u8], count: u32) -> u64
    ensures ones { result ≡ ones_of count packed.now }
    ensures most { result ≤ 8 * count }
{
    let mut bytes = Unpacker::new(packed);
    let mut ones = 0;
    for _index in 0..count {
        let Some(byte) = bytes.byte() else {
            return ones;
        };
        ones += set_bits(byte);
    }
    ones
}

/// Counts the 1 bits of a byte.
fn set_bits(byte: u8) -> u64
    ensures ones { result ≡ count_ones byte }
    ensures most { result ≤ 8 }
{
    byte.count_ones() as u64
}

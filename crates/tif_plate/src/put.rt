// Numbers written into a buffer one after the other, least significant byte first. Each call returns the
// offset after the bytes that it wrote.
ghost use Rattle.std.specs.Prelude.{◌≡◌, ◌+◌, ◌*◌, ◌≤◌, ◌++◌, length, replicate};
ghost use Rattle.std.specs.List.{flat_map};
ghost use Rattle.byteorder.specs.Endian.{little_bytes};
ghost use Rattle.tif_plate.specs.Plate.{whole as whole_bytes};
ghost use Rattle.tif_plate.specs.Put.{Puts};

use byteorder::{ByteOrder, LittleEndian};

/// Writes `n` zero bytes.
pub(crate) fn put_zeros(into: &mut [u8], at: usize, n: usize) -> usize
    requires { at + n ≤ length into.old }
    ensures at { result ≡ at + n }
    ensures put { Puts at (replicate n 0) into.old into.new }
{
    into[at..at + n].fill(0);
    at + n
}

/// Writes a two-byte number.
pub(crate) fn put_u16(into: &mut [u8], at: usize, number: u16) -> usize
    requires { at + 2 ≤ length into.old }
    ensures at { result ≡ at + 2 }
    ensures put { Puts at (little_bytes 2 number) into.old into.new }
{
    LittleEndian::write_u16(&mut into[at..], number);
    at + 2
}

/// Writes a whole number as a RATIONAL.
pub(crate) fn put_whole(into: &mut [u8], at: usize, number: u32) -> usize
    requires { at + 8 ≤ length into.old }
    ensures at { result ≡ at + 8 }
    ensures put { Puts at (whole_bytes number) into.old into.new }
{
    put_all(into, at, &[number, 1])
}

/// Writes four-byte numbers in order.
pub(crate) fn put_all(into: &mut [u8], at: usize, numbers: &[u32]) -> usize
    requires { at + 4 * length numbers.now ≤ length into.old }
    ensures at { result ≡ at + 4 * length numbers.now }
    ensures put { Puts at (flat_map (little_bytes 4) numbers.now) into.old into.new }
{
    let end = at + 4 * numbers.len();
    LittleEndian::write_u32_into(numbers, &mut into[at..end]);
    end
}

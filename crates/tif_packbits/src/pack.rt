// The packing of a row: runs of three or more equal bytes as repeats, everything else as literals.
ghost use Rattle.std.specs.Prelude.{◌≡◌, ◌+◌, ◌-◌, ◌<◌, ◌≤◌, ◌∷◌, ◌++◌, length, take, drop};
ghost use Rattle.tif_packbits.specs.Front.{IsWritten};
ghost use Rattle.tif_packbits.specs.Packbits.{packing, packed_bound};

use crate::bytes;
use crate::row_front::{Front, front_of};

/// The maximum number of bytes that a packet represents.
pub(crate) const LONGEST: usize = 128;

/// Returns the maximum length of the packing of `n` bytes.
pub fn pack_bound(n: usize) -> usize
    requires { n ≤ 65535 }
    ensures { result ≡ packed_bound n }
{
    n + n.div_ceil(LONGEST)
}

/// Writes the packing of `row` to the start of `into` and returns its length.
pub fn pack_row(row: &[u8], into: &mut [u8]) -> usize
    requires { packed_bound (length row.now) ≤ length into.old }
    ensures len { result ≡ length (packing row.now) }
    ensures packed { into.new ≡ packing row.now ++ drop result into.old }
{
    let mut from = 0;
    let mut at = 0;
    while from < row.len() {
        let (taken, written) = write_front(&row[from..], &mut into[at..]);
        from += taken;
        at += written;
    }
    at
}

/// Writes the first packet of `row`, or the first two, to the start of `into`. Returns the number of bytes
/// of the row that they represent, and the number of bytes written.
fn write_front(row: &[u8], into: &mut [u8]) -> (usize, usize)
    requires some { 0 < length row.now }
    requires room { length (packing row.now) ≤ length into.old }
    ensures { IsWritten row.now into.old into.new result.0 result.1 }
{
    match front_of(row) {
        Front::Run(n) => {
            write_run(row, n, into);
            return (n, 2);
        }
        Front::Literal(n) => {
            write_literal(row, n, into);
            return (n, n + 1);
        }
        Front::Both(n, run) => {
            write_literal(row, n, into);
            write_run(&row[n..], run, &mut into[n + 1..]);
            return (n + run, n + 3);
        }
    }
}

/// Writes the first `n` bytes of `row`, which are equal, as one repeat packet.
fn write_run(row: &[u8], n: usize, into: &mut [u8])
    requires row { 0 < length row.now }
    requires run { (3 ≤ n) × (n ≤ 128) }
    requires room { 2 ≤ length into.old }
    ensures { into.new ≡ ((257 - n) ∷ take 1 row.now) ++ drop 2 into.old }
{
    into[0] = (257 - n) as u8;
    into[1] = row[0];
}

/// Writes the first `n` bytes of `row` as one literal packet.
fn write_literal(row: &[u8], n: usize, into: &mut [u8])
    requires row { n ≤ length row.now }
    requires literal { (1 ≤ n) × (n ≤ 128) }
    requires room { n + 1 ≤ length into.old }
    ensures { into.new ≡ ((n - 1) ∷ take n row.now) ++ drop (n + 1) into.old }
{
    into[0] = (n - 1) as u8;
    bytes::copy_front(row, n, &mut into[1..]);
}

// Copies and fills of few bytes. A call of the C library's functions takes longer than most packets, so up
// to 32 bytes are written in place: a head and a tail of fixed length, which may overlap.
ghost use Rattle.std.specs.Prelude.{◌≡◌, ◌+◌, ◌≤◌, ◌++◌, length, take, drop, replicate};

use std::simd::prelude::*;

/// The number of bytes, and of vector lanes, in a short copy.
const FEW: usize = 16;

/// The indices of the lanes.
const PLACES: [u8; FEW] = [0, 1, 2, 3, 4, 5, 6, 7, 8, 9, 10, 11, 12, 13, 14, 15];

/// Copies `from` to `into`, which is of equal length.
pub fn copy(from: &[u8], into: &mut [u8])
    requires { length from.now ≡ length into.old }
    ensures { into.new ≡ from.now }
{
    match from.len() {
        0 => {}
        1 => into[0] = from[0],
        2..=4 => copy_ends::<2>(from, into),
        5..=8 => copy_ends::<4>(from, into),
        9..=16 => copy_ends::<8>(from, into),
        17..=32 => copy_ends::<16>(from, into),
        _ => into.copy_from_slice(from),
    }
}

/// Copies the first `n` bytes of `from` to the start of `into`.
pub fn copy_front(from: &[u8], n: usize, into: &mut [u8])
    requires from { n ≤ length from.now }
    requires into { n ≤ length into.old }
    ensures { into.new ≡ take n from.now ++ drop n into.old }
{
    if n <= FEW && from.len() >= FEW && into.len() >= FEW {
        copy_few(from, n, into);
    } else {
        copy(&from[..n], &mut into[..n]);
    }
}

/// Copies the first `n` bytes, at most `FEW`. A vector select chooses which bytes change, since a branch on
/// `n` would often be mispredicted.
fn copy_few(from: &[u8], n: usize, into: &mut [u8])
    requires few { n ≤ FEW }
    requires from { FEW ≤ length from.now }
    requires into { FEW ≤ length into.old }
    ensures { into.new ≡ take n from.now ++ drop n into.old }
{
    u8x16::from_array(PLACES)
        .simd_lt(u8x16::splat(n as u8))
        .select(u8x16::from_slice(from), u8x16::from_slice(into))
        .copy_to_slice(into);
}

/// Fills `into` with `byte`.
pub fn fill(byte: u8, into: &mut [u8])
    ensures { into.new ≡ replicate (length into.old) byte }
{
    match into.len() {
        0 => {}
        1 => into[0] = byte,
        2..=4 => fill_ends::<2>(byte, into),
        5..=8 => fill_ends::<4>(byte, into),
        9..=16 => fill_ends::<8>(byte, into),
        17..=32 => fill_ends::<16>(byte, into),
        _ => into.fill(byte),
    }
}

/// Copies the first and the last `N` bytes, which together are all.
fn copy_ends<const N: usize>(from: &[u8], into: &mut [u8])
    requires same { length from.now ≡ length into.old }
    requires fits { N ≤ length from.now }
    requires all { length from.now ≤ N + N }
    ensures { into.new ≡ from.now }
{
    let back = from.len() - N;
    into[..N].copy_from_slice(&from[..N]);
    into[back..].copy_from_slice(&from[back..]);
}

/// Fills the first and the last `N` bytes, which together are all.
fn fill_ends<const N: usize>(byte: u8, into: &mut [u8])
    requires fits { N ≤ length into.old }
    requires all { length into.old ≤ N + N }
    ensures { into.new ≡ replicate (length into.old) byte }
{
    let back = into.len() - N;
    into[..N].fill(byte);
    into[back..].fill(byte);
}

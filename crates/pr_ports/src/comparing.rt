// Long files, compared with bytes in memory: by several threads, each its share, and without a buffer for the
// file.
ghost use Rattle.std.specs.Prelude.{◌≡◌, ◌+◌, ◌*◌, ◌^◌, ◌<◌, ◌≤◌, IfOk, IfSome, drop, length, not};
ghost use Rattle.std.specs.Prelude.{option_map};
ghost use Rattle.std.specs.Thread.{IsSync};
ghost use Rattle.pr_base.specs.Count.{count_unless};
ghost use Rattle.pr_ports.specs.Difference.{difference_of};
ghost use Rattle.pr_ports.specs.Offset.{HasFront, IsShare};
ghost use Rattle.pr_ports.specs.Shelf.{has_failed, IfTooLong};

use crate::host_shelf::read_on;
use crate::long_file::processors;
use crate::offset::{FromOffset, OffsetRead};
use crate::shares::LEAST_SHARE;
use crate::{LoadFault, first_difference};
use pr_base::Counted;
use std::alloc::Global;
use std::thread::{Threads, join_mut};

/// The bytes that a thread reads and compares at a time. They stay in its processor's cache.
const PIECE: usize = 1 << 18;

/// Reads a piece of the file from `offset` on into `room`, and returns how many bytes it has if they are the
/// first of `bytes`. Returns 0 if they are not, at the end of the file, and if the read failed.
fn next_alike<F: OffsetRead>(file: &F, bytes: &[u8], offset: u64, room: &mut [u8]) -> usize
    ensures within { result ≤ length bytes.now }
    ensures front { HasFront (F.whole file.now) offset bytes.now result }
{
    let most = room.len().min(bytes.len());
    let piece = &mut room[..most];
    match file.read_from(piece, offset) {
        Some(count) if bytes[..count] == piece[..count] => count,
        _ => 0,
    }
}

/// Returns how many of the first bytes of `bytes` are those of the file from `offset` on, in whole pieces of
/// at most the length of `room`.
fn compare_share<F: OffsetRead>(file: &F, bytes: &[u8], offset: u64, room: &mut [u8]) -> usize
    requires { offset + length bytes.now < 2 ^ 64 }
    ensures within { result ≤ length bytes.now }
    ensures front { HasFront (F.whole file.now) offset bytes.now result }
{
    let mut at = 0;
    while at < bytes.len() {
        let count = next_alike(file, &bytes[at..], offset + at as u64, room);
        if count == 0 {
            return at;
        }
        at += count;
    }
    at
}

/// Does the same by at most as many threads as `room` has pieces, each of which compares a share of `bytes`
/// in its part of `room`.
#[cycle(comparing)]
#[tactic(auto, using(crate::proofs::Offsets::both_read))]
fn compare_wide<T: Threads + Sync, F: OffsetRead + Sync>(
    rt: &T,
    file: &F,
    offset: u64,
    bytes: &[u8],
    room: &mut [u8],
) -> usize
    requires { offset + length bytes.now < 2 ^ 64 }
    ensures within { result ≤ length bytes.now }
    ensures front { HasFront (F.whole file.now) offset bytes.now result }
{
    let threads = room.len() / PIECE;
    if threads < 2 || bytes.len() / 2 < LEAST_SHARE {
        return compare_share(file, bytes, offset, room);
    }
    let fewer = threads / 2;
    let half = bytes.len() / threads * fewer;
    let middle = offset + half as u64;
    let (front, back) = bytes.split_at(half);
    let (one_room, other_room) = room.split_at_mut(fewer * PIECE);
    let (one, other) = join_mut(
        rt,
        &mut || -> usize
            requires sync { IsSync T.row × IsSync F.row }
            requires fits { offset + length front.now < 2 ^ 64 }
            ensures { IsShare (F.whole file.entry.now) offset front.entry.now result }
        { compare_wide(rt, file, offset, front, one_room) },
        &mut || -> usize
            requires sync { IsSync T.row × IsSync F.row }
            requires fits { middle + length back.now < 2 ^ 64 }
            ensures { IsShare (F.whole file.entry.now) middle back.entry.now result }
        { compare_wide(rt, file, middle, back, other_room) },
    );
    if one < half { one } else { half + other }
}

/// Returns how many threads compare a file of `size` bytes.
pub(crate) fn threads_for<T: Threads>(rt: &T, size: u64) -> usize
    ensures { (1 ≤ result) × (result ≤ 8) }
{
    let shares = (size / LEAST_SHARE as u64) as usize;
    processors(rt).min(shares).max(1)
}

/// Returns where `bytes` first differ from others that begin with `alike` of them and go on with `left`.
fn difference_behind(bytes: &[u8], alike: usize, left: &[u8]) -> Option<u64>
    requires { alike ≤ length bytes.now }
    ensures { result ≡ option_map (λ k. alike + k) (difference_of (drop alike bytes.now) left.now) }
{
    match first_difference(&bytes[alike..], left) {
        Some(at) => Some(alike as u64 + at),
        None => None,
    }
}

/// Returns where a file, at most `limit` bytes long, first differs from `bytes`. At most `threads` threads
/// compare it as far as it agrees; what follows is loaded, to the file's end or one byte beyond `limit`.
/// `faults` counts the reads that failed.
pub(crate) fn compare_long<T: Threads + Sync, F: OffsetRead + Sync>(
    rt: &T,
    threads: usize,
    alloc: Global,
    file: &F,
    limit: u64,
    bytes: &[u8],
    faults: &mut u64,
) -> Result<Option<u64>, LoadFault>
    requires { (1 ≤ threads) × (threads ≤ 8) }
    ensures told { IfTooLong result (λ told. told ≡ limit) }
    ensures within { IfOk result (λ _. IfSome (F.whole file.now) (λ all. length all ≤ limit)) }
    ensures compared { IfOk result
        (λ at. IfSome (F.whole file.now) (λ all. at ≡ difference_of bytes.now all)) }
    ensures longer { IfTooLong result (λ _. IfSome (F.whole file.now) (λ all. limit < length all)) }
    ensures count { faults.new ≡ count_unless (not (has_failed result)) faults.old }
    ensures faults_stay { faults.old ≤ faults.new }
{
    let Ok(mut room) = vec![in alloc; 0; threads * PIECE] else {
        return Err(LoadFault::Memory);
    };
    let most = limit.min(bytes.len() as u64) as usize;
    let alike = compare_wide(rt, file, 0, &bytes[..most], &mut room);
    let mut rest = Counted::new(
        FromOffset {
            file,
            offset: alike as u64,
        },
        *faults,
    );
    let left = read_on(&mut rest, Vec::new(alloc), limit - alike as u64);
    *faults = rest.faults();
    match left {
        Ok(left) => Ok(difference_behind(bytes, alike, &left)),
        Err(LoadFault::TooLong { .. }) => Err(LoadFault::TooLong { limit }),
        Err(fault) => Err(fault),
    }
}

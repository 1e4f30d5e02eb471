// A file's bytes read by several threads, each into its own share of a buffer.
ghost use Rattle.std.specs.Prelude.{◌≡◌, ◌+◌, ◌*◌, ◌^◌, ◌<◌, ◌≤◌, IfSome, drop, length, take};
ghost use Rattle.std.specs.Thread.{IsSync};
ghost use Rattle.pr_ports.specs.Offset.{HasFront, IsReadAt, IsShare};

use crate::offset::OffsetRead;
use std::thread::{Threads, join_mut};

/// The least bytes of a share: below, starting a thread takes longer than reading.
pub(crate) const LEAST_SHARE: usize = 1 << 20;

/// Reads into `into` from index `at` on, from byte `offset` of the file on.
fn read_behind_at<F: OffsetRead>(file: &F, into: &mut [u8], at: usize, offset: u64) -> Option<usize>
    requires { at < length into.old }
    ensures front { take at into.new ≡ take at into.old }
    ensures within { IfSome result (λ count. at + count ≤ length into.new) }
    ensures bytes { IfSome result (IsReadAt (F.whole file.now) offset (drop at into.new)) }
{
    file.read_from(&mut into[at..], offset)
}

/// Fills `into` with the file's bytes from `offset` on. Returns how many of them were read before the end of
/// the file or a read that failed.
#[tactic(auto, using(crate::proofs::Offsets::front_more))]
pub(crate) fn fill_share<F: OffsetRead>(file: &F, into: &mut [u8], offset: u64) -> usize
    requires { offset + length into.old < 2 ^ 64 }
    ensures within { result ≤ length into.new }
    ensures front { HasFront (F.whole file.now) offset into.new result }
{
    let mut at = 0;
    while at < into.len() {
        match read_behind_at(file, into, at, offset + at as u64) {
            None | Some(0) => return at,
            Some(count) => at += count,
        }
    }
    at
}

/// Does the same by at most `threads` threads, each of which fills a share of `into`.
#[cycle(shares)]
#[tactic(auto, using(crate::proofs::Offsets::both_read))]
pub(crate) fn fill_wide<T: Threads + Sync, F: OffsetRead + Sync>(
    rt: &T,
    threads: usize,
    file: &F,
    offset: u64,
    into: &mut [u8],
) -> usize
    requires { offset + length into.old < 2 ^ 64 }
    ensures within { result ≤ length into.new }
    ensures front { HasFront (F.whole file.now) offset into.new result }
{
    if threads < 2 || into.len() / 2 < LEAST_SHARE {
        return fill_share(file, into, offset);
    }
    let fewer = threads / 2;
    let more = threads - fewer;
    let half = into.len() / threads * fewer;
    let middle = offset + half as u64;
    let (front, back) = into.split_at_mut(half);
    let (one, other) = join_mut(
        rt,
        &mut || -> usize
            requires sync { IsSync T.row × IsSync F.row }
            requires fits { offset + length front.now < 2 ^ 64 }
            ensures { IsShare (F.whole file.entry.now) offset front.exit.now result }
        { fill_wide(rt, fewer, file, offset, front) },
        &mut || -> usize
            requires sync { IsSync T.row × IsSync F.row }
            requires fits { middle + length back.now < 2 ^ 64 }
            ensures { IsShare (F.whole file.entry.now) middle back.exit.now result }
        { fill_wide(rt, more, file, middle, back) },
    );
    if one < half { one } else { half + other }
}

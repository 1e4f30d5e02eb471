// Long files, loaded by several threads.
ghost use Rattle.std.specs.Prelude.{◌≡◌, ◌<◌, ◌≤◌, [], Err, IfOk, IfSome, OnErr, length, not};
ghost use Rattle.pr_base.specs.Count.{count_unless};
ghost use Rattle.pr_ports.specs.Offset.{HasFront};
ghost use Rattle.pr_ports.specs.Shelf.{has_failed, IfTooLong};

use crate::LoadFault;
use crate::host_shelf::read_on;
use crate::offset::{FromOffset, OffsetRead};
use crate::shares::fill_wide;
use pr_base::Counted;
use std::alloc::Global;
use std::thread::{Threads, available_parallelism};

/// The bytes from which a file is loaded by several threads. Below, there is little to gain.
const LONG_FILE: u64 = 8 << 20;

/// The most threads that load or compare a file.
const MOST_THREADS: usize = 8;

/// Returns the number of processors, at most eight.
pub(crate) fn processors<T: Threads>(rt: &T) -> usize
    ensures { result ≤ 8 }
{
    match available_parallelism(rt) {
        Ok(processors) => processors.get().min(MOST_THREADS),
        Err(_) => 1,
    }
}

/// Returns how many threads load a file of `size` bytes. Two gain nothing over one, which reads each piece
/// while its zeros are still in the cache.
pub(crate) fn threads_for<T: Threads>(rt: &T, size: u64) -> usize {
    if size < LONG_FILE {
        return 1;
    }
    match processors(rt) {
        0..=2 => 1,
        several => several,
    }
}

/// Reads the first `told` bytes of a file by at most `threads` threads, or fewer if the file ends before or a
/// read fails.
fn read_front<T: Threads + Sync, F: OffsetRead + Sync>(
    rt: &T,
    threads: usize,
    file: &F,
    mut bytes: Vec<u8>,
    told: usize,
) -> Result<Vec<u8>, LoadFault>
    requires { bytes.items ≡ [] }
    ensures within { IfOk result (λ front. length front.items ≤ told) }
    ensures front { IfOk result (λ front. HasFront (F.whole file.now) 0 front.items (length front.items)) }
    ensures memory { OnErr result (result ≡ Err LoadFault.Memory) }
{
    if bytes.resize(told, 0).is_err() {
        return Err(LoadFault::Memory);
    }
    let count = fill_wide(rt, threads, file, 0, bytes.as_mut_slice());
    bytes.truncate(count);
    Ok(bytes)
}

/// Reads a file to its end, or to one byte beyond `limit`, its front of `size` bytes by at most `threads`
/// threads. The rest, if the file has grown, is read in order. `faults` counts the reads that failed.
pub(crate) fn read_long<T: Threads + Sync, F: OffsetRead + Sync>(
    rt: &T,
    threads: usize,
    alloc: Global,
    file: &F,
    size: u64,
    limit: u64,
    faults: &mut u64,
) -> Result<Vec<u8>, LoadFault>
    ensures told { IfTooLong result (λ told. told ≡ limit) }
    ensures within { IfOk result (λ bytes. length bytes.items ≤ limit) }
    ensures whole { IfOk result (λ bytes. IfSome (F.whole file.now) (λ all. all ≡ bytes.items)) }
    ensures longer { IfTooLong result (λ _. IfSome (F.whole file.now) (λ all. limit < length all)) }
    ensures count { faults.new ≡ count_unless (not (has_failed result)) faults.old }
    ensures faults_stay { faults.old ≤ faults.new }
{
    let told = size.min(limit) as usize;
    let Ok(room) = Vec::with_capacity(alloc, told.saturating_add(1)) else {
        return Err(LoadFault::Memory);
    };
    let bytes = read_front(rt, threads, file, room, told)?;
    let offset = bytes.len() as u64;
    let mut rest = Counted::new(FromOffset { file, offset }, *faults);
    let result = read_on(&mut rest, bytes, limit);
    *faults = rest.faults();
    result
}

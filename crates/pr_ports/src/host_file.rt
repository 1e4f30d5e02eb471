// The files of the host, each loaded or compared whole.
ghost use Rattle.std.specs.Prelude.{◌≡◌, ◌≤◌, IfOk, length, not};
ghost use Rattle.std.specs.Thread.{IsSync};
ghost use Rattle.pr_base.specs.Count.{count_unless};
ghost use Rattle.pr_ports.specs.Shelf.{has_failed, IfTooLong};

use crate::comparing::compare_long;
use crate::host_shelf::read_whole;
use crate::long_file::{read_long, threads_for};
use crate::shares::LEAST_SHARE;
use crate::{LoadFault, comparing, first_difference};
use pr_base::{Counted, raised};
use std::fs;
use std::fs::{File, OpenFile};
use std::rt::Files;
use std::thread::Threads;

/// Loads and compares files of the host, long ones in several threads. A runtime that permits threads is one.
///
/// Implementers define `may`, the condition under which files may be loaded and compared. It is kept here
/// because neither a struct nor a method of `Shelf` can state that a value may be shared between threads.
pub trait FileLoader {
    ghost may: { Type 0 };

    /// Returns the bytes of the file at `path`, at most `limit` of them. `faults` counts the calls that
    /// failed.
    fn load_file(&self, path: &str, limit: u64, faults: &mut u64) -> Result<Vec<u8>, LoadFault>
        requires { may }
        ensures told { IfTooLong result (λ told. told ≡ limit) }
        ensures within { IfOk result (λ bytes. length bytes.items ≤ limit) }
        ensures count { faults.new ≡ count_unless (not (has_failed result)) faults.old }
        ensures faults_stay { faults.old ≤ faults.new };

    /// Returns where the file at `path`, of at most `limit` bytes, first differs from `bytes`. `faults`
    /// counts the calls that failed.
    fn compare_file(
        &self,
        path: &str,
        limit: u64,
        bytes: &[u8],
        faults: &mut u64,
    ) -> Result<Option<u64>, LoadFault>
        requires { may }
        ensures told { IfTooLong result (λ told. told ≡ limit) }
        ensures count { faults.new ≡ count_unless (not (has_failed result)) faults.old }
        ensures faults_stay { faults.old ≤ faults.new };
}

impl<R: Files<File = File> + AllocGlobal + Threads + Sync> FileLoader for R {
    ghost may = { IsSync R.row };

    fn load_file(&self, path: &str, limit: u64, faults: &mut u64) -> Result<Vec<u8>, LoadFault> {
        match HostFile::open(self, path) {
            Some(file) => file.read(self, limit, faults),
            None => {
                *faults = raised(*faults);
                Err(LoadFault::Failed)
            }
        }
    }

    fn compare_file(
        &self,
        path: &str,
        limit: u64,
        bytes: &[u8],
        faults: &mut u64,
    ) -> Result<Option<u64>, LoadFault> {
        match HostFile::open(self, path) {
            Some(file) => file.compare(self, limit, bytes, faults),
            None => {
                *faults = raised(*faults);
                Err(LoadFault::Failed)
            }
        }
    }
}

/// An open file, and the length in bytes that its metadata reports.
#[derive(Drop)]
struct HostFile {
    file: File,
    size: u64,
}

impl HostFile {
    /// Opens the file at `path`, if there is one that can be opened.
    fn open<R: Files<File = File>>(rt: &R, path: &str) -> Option<HostFile> {
        let file = fs::open(rt, path).ok()?;
        let size = match file.metadata() {
            Ok(metadata) => metadata.len(),
            Err(_) => 0,
        };
        Some(HostFile { file, size })
    }
}

/// A file that is read or compared whole, in several threads if it is long.
///
/// This is a trait because an `impl` can pass a value of its type parameter on as one that threads may share
/// only to a method of a trait that requires it.
trait ReadWide {
    /// Returns the bytes of the file, at most `limit` of them. `faults` counts the reads that failed.
    fn read<R: AllocGlobal + Threads + Sync>(
        self,
        rt: &R,
        limit: u64,
        faults: &mut u64,
    ) -> Result<Vec<u8>, LoadFault>
        requires { IsSync R.row }
        ensures told { IfTooLong result (λ told. told ≡ limit) }
        ensures within { IfOk result (λ bytes. length bytes.items ≤ limit) }
        ensures count { faults.new ≡ count_unless (not (has_failed result)) faults.old }
        ensures faults_stay { faults.old ≤ faults.new };

    /// Returns where the file, of at most `limit` bytes, first differs from `bytes`. `faults` counts the
    /// reads that failed.
    fn compare<R: AllocGlobal + Threads + Sync>(
        self,
        rt: &R,
        limit: u64,
        bytes: &[u8],
        faults: &mut u64,
    ) -> Result<Option<u64>, LoadFault>
        requires { IsSync R.row }
        ensures told { IfTooLong result (λ told. told ≡ limit) }
        ensures count { faults.new ≡ count_unless (not (has_failed result)) faults.old }
        ensures faults_stay { faults.old ≤ faults.new };
}

impl ReadWide for HostFile {
    fn read<R: AllocGlobal + Threads + Sync>(
        self,
        rt: &R,
        limit: u64,
        faults: &mut u64,
    ) -> Result<Vec<u8>, LoadFault> {
        let HostFile { file, size } = self;
        let alloc = rt.alloc();
        let threads = threads_for(rt, size.min(limit));
        if threads > 1 {
            return read_long(rt, threads, alloc, &file, size, limit, faults);
        }
        let mut file = Counted::new(file, *faults);
        let result = read_whole(alloc, &mut file, size, limit);
        *faults = file.faults();
        result
    }

    fn compare<R: AllocGlobal + Threads + Sync>(
        self,
        rt: &R,
        limit: u64,
        bytes: &[u8],
        faults: &mut u64,
    ) -> Result<Option<u64>, LoadFault> {
        if self.size >= LEAST_SHARE as u64 {
            let threads = comparing::threads_for(rt, self.size);
            return compare_long(rt, threads, rt.alloc(), &self.file, limit, bytes, faults);
        }
        match self.read(rt, limit, faults) {
            Ok(file) => Ok(first_difference(bytes, &file)),
            Err(fault) => Err(fault),
        }
    }
}

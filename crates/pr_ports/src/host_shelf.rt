// The shelf of files on the host.
ghost use Rattle.std.specs.Prelude.{◌≡◌, ◌+◌, ◌-◌, ◌++◌, ◌<◌, ◌≤◌, None, IfOk, IfSome, IsErrOf, OnErr, ◌==◌};
ghost use Rattle.std.specs.Prelude.{drop, false, if◌then◌else◌, is_some, length, min, not, take};
ghost use Rattle.std.specs.Io.KnownBytes.{Keeps};
ghost use Rattle.pr_base.specs.Count.{Rose, count_unless};
ghost use Rattle.pr_base.specs.Stream.{ReadsSome};
ghost use Rattle.pr_ports.specs.Shelf.{has_failed, is_too_long, GaveAtMost, HasCome, IfTooLong};
ghost use Rattle.pr_ports.specs.Mem.{Counts, counts_after};

use crate::host_file::FileLoader;
use crate::{LoadFault, Shelf};
use pr_base::{Counted, raised};
use std::alloc::Global;
use std::io::Read;
use std::marker::Model;

/// Files on the host, by path. A file that can't be opened or read is a counted `Failed`. Contracts know
/// only its counts, not the files.
#[derive(Drop)]
pub struct HostShelf<R: FileLoader> {
    rt: R,
    faults: u64,
    longs: u64,
}

impl<R: FileLoader> Model for HostShelf<R> {
    ghost Value = { Counts };

    ghost view = { λ s. record { faults = s.faults; longs = s.longs } };

    ghost invariant = { λ _. R.may };
}

impl<R: FileLoader> HostShelf<R> {
    /// A shelf of the host's files, with no failures counted. Long files are loaded in threads that `rt`
    /// permits.
    pub fn new(rt: R) -> HostShelf<R>
        requires { R.may }
        ensures { result ≡ record { faults = 0; longs = 0 } }
    {
        HostShelf {
            rt,
            faults: 0,
            longs: 0,
        }
    }
}

/// The maximum bytes of one read.
const PIECE: usize = 65_536;

/// Reads into `into` from index `at` on, at most to its end, and returns the number of bytes read.
fn read_behind<F: Read>(file: &mut Counted<F>, into: &mut [u8], at: usize) -> Option<usize>
    requires { at < length into.old }
    ensures front { take at into.new ≡ take at into.old }
    ensures within { IfSome result (λ count. at + count ≤ length into.new) }
    ensures bytes { ReadsSome (F.remaining file.old.stream) (F.remaining file.new.stream)
        result (drop at into.new) }
    ensures count { file.new.faults ≡ count_unless (is_some result) file.old.faults }
{
    file.read(&mut into[at..])
}

/// Reads at most `most` bytes and appends them to `bytes`. Returns the number of bytes read, which is 0
/// only at the end of the file.
fn read_piece<F: Read>(
    file: &mut Counted<F>,
    bytes: &mut Vec<u8>,
    most: usize,
) -> Result<usize, LoadFault>
    requires { 0 < most }
    ensures within { IfOk result (λ count. count ≤ most) }
    ensures came { IfOk result (HasCome (F.remaining file.old.stream) (F.remaining file.new.stream)
        bytes.old.items bytes.new.items) }
    ensures kept { OnErr result (Keeps (F.remaining file.old.stream) (F.remaining file.new.stream)) }
    ensures short { IfTooLong result (λ _. ⊥) }
    ensures count { file.new.faults ≡ count_unless (not (has_failed result)) file.old.faults }
{
    let len = bytes.len();
    if most > usize::MAX - len || bytes.resize(len + most, 0).is_err() {
        return Err(LoadFault::Memory);
    }
    match read_behind(file, bytes.as_mut_slice(), len) {
        None => Err(LoadFault::Failed),
        Some(count) => {
            bytes.truncate(len + count);
            Ok(count)
        }
    }
}

/// Reads a file to its end, or to one byte beyond `limit`. `size` is the length that the file's metadata
/// reports. Memory for it is reserved in advance, plus one byte for the read that detects the end.
pub(crate) fn read_whole<F: Read>(
    alloc: Global,
    file: &mut Counted<F>,
    size: u64,
    limit: u64,
) -> Result<Vec<u8>, LoadFault>
    ensures told { IfTooLong result (λ told. told ≡ limit) }
    ensures within { IfOk result (λ bytes. length bytes.items ≤ limit) }
    ensures whole { IfOk result (λ bytes. IfSome (F.remaining file.old.stream) (λ left. left ≡ bytes.items)) }
    ensures longer { IfTooLong result
        (λ _. IfSome (F.remaining file.old.stream) (λ left. limit < length left)) }
    ensures most { GaveAtMost (limit + 1) (F.remaining file.old.stream) (F.remaining file.new.stream) }
    ensures count { file.new.faults ≡ count_unless (not (has_failed result)) file.old.faults }
{
    let expected = (size.min(limit) as usize).saturating_add(1);
    let Ok(bytes) = Vec::with_capacity(alloc, expected) else {
        return Err(LoadFault::Memory);
    };
    read_on(file, bytes, limit)
}

/// Reads the rest of a file behind the bytes that were read before it, to its end or to one byte beyond
/// `limit`.
pub(crate) fn read_on<F: Read>(
    file: &mut Counted<F>,
    mut bytes: Vec<u8>,
    limit: u64,
) -> Result<Vec<u8>, LoadFault>
    requires { length bytes.items ≤ limit }
    ensures told { IfTooLong result (λ told. told ≡ limit) }
    ensures within { IfOk result (λ all. length all.items ≤ limit) }
    ensures whole { IfOk result
        (λ all. IfSome (F.remaining file.old.stream) (λ left. bytes.items ++ left ≡ all.items)) }
    ensures longer { IfTooLong result
        (λ _. IfSome (F.remaining file.old.stream) (λ left. limit < length (bytes.items ++ left))) }
    ensures most { GaveAtMost (limit + 1 - length bytes.items)
        (F.remaining file.old.stream) (F.remaining file.new.stream) }
    ensures count { file.new.faults ≡ count_unless (not (has_failed result)) file.old.faults }
{
    'pieces: loop {
        let room = limit - bytes.len() as u64;
        let most = piece_len(room, bytes.capacity() - bytes.len());
        let count = read_piece(file, &mut bytes, most)?;
        if count == 0 {
            return Ok(bytes);
        }
        if count as u64 > room {
            return Err(LoadFault::TooLong { limit });
        }
    }
}

/// Returns the size of the next read in bytes, where `room` bytes are left to the limit and `spare` bytes
/// are allocated but unused: at most one byte beyond the limit, and no more than `spare` unless that is 0.
fn piece_len(room: u64, spare: usize) -> usize
    ensures value { let most = min (room + 1) PIECE in
        result ≡ (if spare == 0 then most else min most spare) }
    ensures some { 0 < result }
    ensures within { result ≤ room + 1 }
{
    let most = if room < PIECE as u64 {
        room as usize + 1
    } else {
        PIECE
    };
    if spare == 0 { most } else { most.min(spare) }
}

impl<R: FileLoader> Shelf for HostShelf<R> {
    ghost held = { λ _. None };

    ghost missed = { λ _. None };

    ghost faults = { λ s. s.faults };

    ghost longs = { λ s. s.longs };

    fn load(&mut self, path: &str, limit: u64) -> Result<Vec<u8>, LoadFault>
        ensures within { IfOk result (λ bytes. length bytes.items ≤ limit) }
        ensures too_long { IfTooLong result (λ told. told ≡ limit) }
        ensures long_counted { IfTooLong result (λ _. Rose self.old.longs self.new.longs) }
        ensures long_uncounted { is_too_long result ≡ false → self.new.longs ≡ self.old.longs }
        ensures counted { IsErrOf result LoadFault.Failed → Rose self.old.faults self.new.faults }
        ensures uncounted { has_failed result ≡ false → self.new.faults ≡ self.old.faults }
        ensures faults_stay { self.old.faults ≤ self.new.faults }
        ensures longs_stay { self.old.longs ≤ self.new.longs }

        ensures after { self.new ≡ counts_after self.old result }
    {
        let result = self.rt.load_file(path, limit, &mut self.faults);
        if let Err(LoadFault::TooLong { .. }) = &result {
            self.longs = raised(self.longs);
        }
        result
    }

    fn compare(&mut self, path: &str, limit: u64, bytes: &[u8]) -> Result<Option<u64>, LoadFault>
        ensures too_long { IfTooLong result (λ told. told ≡ limit) }
        ensures long_counted { IfTooLong result (λ _. Rose self.old.longs self.new.longs) }
        ensures long_uncounted { is_too_long result ≡ false → self.new.longs ≡ self.old.longs }
        ensures counted { IsErrOf result LoadFault.Failed → Rose self.old.faults self.new.faults }
        ensures uncounted { has_failed result ≡ false → self.new.faults ≡ self.old.faults }
        ensures faults_stay { self.old.faults ≤ self.new.faults }
        ensures longs_stay { self.old.longs ≤ self.new.longs }

        ensures after { self.new ≡ counts_after self.old result }
    {
        let result = self.rt.compare_file(path, limit, bytes, &mut self.faults);
        if let Err(LoadFault::TooLong { .. }) = &result {
            self.longs = raised(self.longs);
        }
        result
    }
}

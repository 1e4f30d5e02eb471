// An operating-system stream that counts its failed calls.
ghost use Rattle.std.specs.Prelude.{◌≡◌, ◌<◌, ◌≤◌, IfSome, Some, is_some, length};
ghost use Rattle.std.specs.Bool.{OnTrue};
ghost use Rattle.std.specs.Io.KnownBytes.{Appends, Keeps};
ghost use Rattle.pr_base.specs.Count.{count_unless};
ghost use Rattle.pr_base.specs.Stream.{AppendsFront, ReadsSome, WritesSome};

use crate::raised;
use std::fs::OpenFile;
use std::io::{Read, Seek, SeekFrom, Write};
use std::marker::Model;

/// A reader or a writer with a count of its failed calls. The count rises only in these methods, by one per
/// failure, and saturates at 2^64 - 1.
#[derive(Drop)]
pub struct Counted<S> {
    stream: S,
    faults: u64,
}

impl<S> Model for Counted<S> {
    ghost use Rattle.pr_base.specs.Stream.{CountedState};

    ghost Value = { CountedState S };

    ghost view = { λ c. record { stream = c.stream; faults = c.faults } };
}

impl<S> Counted<S> {
    /// Wraps the stream, starting from a count of `faults`.
    pub fn new(stream: S, faults: u64) -> Counted<S>
        ensures { result ≡ record { stream = stream; faults = faults } }
    {
        Counted { stream, faults }
    }

    /// Returns the number of failed calls.
    pub fn faults(&self) -> u64
        ensures { result ≡ self.now.faults }
    {
        self.faults
    }

    /// Returns the stream.
    pub fn into_stream(self) -> S
        ensures { result ≡ self.stream }
    {
        let Counted { stream, .. } = self;
        stream
    }

    /// Counts a failure if the call did not succeed, and returns `done`.
    fn counted(&mut self, done: bool) -> bool
        ensures answer { result ≡ done }
        ensures stream { self.new.stream ≡ self.old.stream }
        ensures count { self.new.faults ≡ count_unless done self.old.faults }
        ensures faults_stay { self.old.faults ≤ self.new.faults }
    {
        if !done {
            self.faults = raised(self.faults);
        }
        done
    }
}

impl<R: Read> Counted<R> {
    /// Reads into the start of `into` and returns the number of bytes read. An empty read of a non-empty
    /// buffer means the end of the stream.
    /// Returns `None` for an error of the reader, which is counted.
    pub fn read(&mut self, into: &mut [u8]) -> Option<usize>
        ensures within { IfSome result (λ count. count ≤ length into.new) }
        ensures bytes { ReadsSome (R.remaining self.old.stream) (R.remaining self.new.stream)
            result into.new }
        ensures count { self.new.faults ≡ count_unless (is_some result) self.old.faults }
        ensures faults_stay { self.old.faults ≤ self.new.faults }
    {
        let count = self.stream.read(into).ok();
        self.counted(count.is_some());
        count
    }
}

impl<W: Write> Counted<W> {
    /// Writes a prefix of `piece` and returns the number of bytes accepted, at least one. Returns `None`
    /// for an error of the writer, or a write that accepted nothing; both are counted.
    fn write(&mut self, piece: &[u8]) -> Option<usize>
        ensures some { IfSome result (λ count. 0 < count) }
        ensures within { IfSome result (λ count. count ≤ length piece.now) }
        ensures bytes { WritesSome (W.contents self.old.stream) (W.contents self.new.stream)
            result piece.now }
        ensures count { self.new.faults ≡ count_unless (is_some result) self.old.faults }
        ensures faults_stay { self.old.faults ≤ self.new.faults }
    {
        match self.stream.write(piece) {
            Ok(0) | Err(_) => {
                self.faults = raised(self.faults);
                None
            }
            Ok(count) => Some(count),
        }
    }

    /// Writes all of `bytes`. Returns false if the writer failed, which is counted; it has then accepted a
    /// prefix of `bytes`.
    pub fn append(&mut self, bytes: &[u8]) -> bool
        ensures written { OnTrue result
            (Appends (W.contents self.old.stream) (W.contents self.new.stream) bytes.now) }
        ensures front { AppendsFront (W.contents self.old.stream) (W.contents self.new.stream) bytes.now }
        ensures count { self.new.faults ≡ count_unless result self.old.faults }
        ensures faults_stay { self.old.faults ≤ self.new.faults }
    {
        let mut rest = bytes;
        while !rest.is_empty() {
            match self.write(rest) {
                None => return false,
                Some(count) => rest = &rest[count..],
            }
        }
        true
    }

    /// Flushes the writer. Returns false if that failed, which is counted.
    pub fn flush(&mut self) -> bool
        ensures bytes { Keeps (W.contents self.old.stream) (W.contents self.new.stream) }
        ensures count { self.new.faults ≡ count_unless result self.old.faults }
        ensures faults_stay { self.old.faults ≤ self.new.faults }
    {
        let flushed = self.stream.flush().is_ok();
        self.counted(flushed)
    }
}

impl<F: Seek> Counted<F> {
    /// Seeks to byte `place` of the file. Returns false if that failed, which is counted.
    pub fn go_to(&mut self, place: u64) -> bool
        ensures there { OnTrue result
            (IfSome (F.stream_position self.old.stream)
            (λ _. F.stream_position self.new.stream ≡ Some place)) }
        ensures count { self.new.faults ≡ count_unless result self.old.faults }
        ensures faults_stay { self.old.faults ≤ self.new.faults }
    {
        let there = self.stream.seek(SeekFrom::Start(place)).is_ok();
        self.counted(there)
    }
}

impl<F: Write + OpenFile> Counted<F> {
    /// Flushes the writer and syncs the file to storage. Returns false if either failed, as closing the file
    /// might; the failure is counted.
    pub fn keep(&mut self) -> bool
        ensures bytes { Keeps (F.contents self.old.stream) (F.contents self.new.stream) }
        ensures count { self.new.faults ≡ count_unless result self.old.faults }
        ensures faults_stay { self.old.faults ≤ self.new.faults }
    {
        let kept = self.stream.flush().is_ok() && self.stream.sync_all().is_ok();
        self.counted(kept)
    }
}

// Files that are read at offsets.
ghost use Rattle.std.specs.Prelude.{◌≤◌, ℕ, List, Option, None, IfSome, drop, length};
ghost use Rattle.std.specs.Option.{option_map};
ghost use Rattle.pr_ports.specs.Offset.{IsReadAt};

use std::io;
use std::io::{ErrorKind, Read};
use std::os::unix::fs::FileExt;

/// A file that threads share, each of which reads at its own offset.
pub(crate) trait OffsetRead {
    /// All bytes of the file, where known.
    ghost whole: { Self → Option (List ℕ) };

    /// Reads into the start of `into` from byte `offset` of the file on, and returns the number of bytes
    /// read: 0 only at the end of the file, or if `into` is empty. Returns `None` if the read failed.
    fn read_from(&self, into: &mut [u8], offset: u64) -> Option<usize>
        ensures within { IfSome result (λ count. count ≤ length into.new) }
        ensures bytes { IfSome result (IsReadAt (whole self.now) offset into.new) };
}

impl<F: FileExt> OffsetRead for F {
    ghost whole = { λ _. None };

    fn read_from(&self, into: &mut [u8], offset: u64) -> Option<usize> {
        self.read_at(into, offset).ok()
    }
}

/// The bytes of a file from an offset on, in order.
#[derive(Drop)]
pub(crate) struct FromOffset<'a, F> {
    pub(crate) file: &'a F,
    pub(crate) offset: u64,
}

impl<'a, F: OffsetRead> Read for FromOffset<'a, F> {
    ghost remaining = { λ s. option_map (λ all. drop s.offset all) (F.whole s.file.now) };

    fn read(&mut self, buf: &mut [u8]) -> io::Result<usize> {
        let Some(count) = self.file.read_from(buf, self.offset) else {
            return Err(io::Error::from(ErrorKind::Other));
        };
        let Some(next) = self.offset.checked_add(count as u64) else {
            return Err(io::Error::from(ErrorKind::Other));
        };
        self.offset = next;
        Ok(count)
    }
}

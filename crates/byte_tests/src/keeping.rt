// Keeping a file: it is flushed, and then synced.
use crate::checks::check;
use pr_base::Counted;
use std::fs::{Metadata, OpenFile};
use std::io;
use std::io::Write;
use std::process::Abort;

/// A file that accepts all bytes, and whose flush or sync may fail.
#[derive(Drop)]
struct Unsure {
    flushes: bool,
    syncs: bool,
}

/// The result of a call that succeeds or fails.
fn answer(done: bool) -> io::Result<()> {
    if done {
        Ok(())
    } else {
        Err(io::Error::from(io::ErrorKind::Other))
    }
}

impl Write for Unsure {
    fn write(&mut self, buf: &[u8]) -> io::Result<usize> {
        Ok(buf.len())
    }

    fn flush(&mut self) -> io::Result<()> {
        answer(self.flushes)
    }
}

impl OpenFile for Unsure {
    fn metadata(&self) -> io::Result<Metadata> {
        Err(io::Error::from(io::ErrorKind::Unsupported))
    }

    fn set_len(&self, _size: u64) -> io::Result<()> {
        answer(false)
    }

    fn sync_all(&self) -> io::Result<()> {
        answer(self.syncs)
    }

    fn sync_data(&self) -> io::Result<()> {
        answer(false)
    }
}

/// Asserts that `keep` succeeds exactly where flush and sync both do, and counts a failure otherwise.
fn assert_keeps(rt: &impl Abort, flushes: bool, syncs: bool) {
    let kept = flushes && syncs;
    let mut file = Counted::new(Unsure { flushes, syncs }, 4);
    let keeps = file.keep() == kept;
    check(rt, &[keeps, file.faults() == 4 + u64::from(!kept)]);
}

#[test]
fn a_file_is_kept_where_it_is_flushed_and_synced(rt: HostRuntime) {
    assert_keeps(&rt, true, true);
    assert_keeps(&rt, true, false);
    assert_keeps(&rt, false, true);
}

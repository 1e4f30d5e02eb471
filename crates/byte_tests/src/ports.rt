// Shelves and sinks, in memory and on the host, and streams whose calls fail.
use crate::checks::check;
use pr_base::{Counted, PathText};
use pr_ports::{
    FileLoader, HostShelf, LoadFault, MemShelf, MemSink, Shelf, Sink, SinkFault, WriterSink,
};
use std::io::{Read, Write};
use std::path::PathBuf;
use std::process::Abort;
use std::test::Fail;
use std::{env, fs, io, process};

/// Returns whether `load` returns these bytes, or fails in this way.
fn loads<S: Shelf>(shelf: &mut S, path: &str, limit: u64, want: Result<&[u8], LoadFault>) -> bool {
    match shelf.load(path, limit) {
        Ok(bytes) => Ok(bytes.as_slice()) == want,
        Err(fault) => Err(fault) == want,
    }
}

/// Returns whether `compare` with these bytes returns this.
fn compares<S: Shelf>(
    shelf: &mut S,
    path: &str,
    limit: u64,
    bytes: &[u8],
    want: Result<Option<u64>, LoadFault>,
) -> bool {
    shelf.compare(path, limit, bytes) == want
}

#[test]
fn a_shelf_in_memory_loads_what_it_holds(rt: HostRuntime) {
    let mut shelf = shelf_of(&rt);
    let too_long = LoadFault::TooLong { limit: 4 };
    let loaded = [
        loads(&mut shelf, "in/a.tif", 5, Ok(b"plate")),
        loads(&mut shelf, "in/a.tif", 4, Err(too_long)),
        loads(&mut shelf, "in/b.tif", 5, Err(LoadFault::Failed)),
        loads(&mut shelf, "in/a.tif", 5, Err(LoadFault::Failed)),
        compares(&mut shelf, "in/a.tif", 5, b"plate", Ok(None)),
        compares(&mut shelf, "in/a.tif", 5, b"plane", Ok(Some(3))),
        compares(&mut shelf, "in/a.tif", 4, b"plate", Err(too_long)),
    ];
    check(&rt, &loaded);
}

// A shelf of one file whose fourth call fails.
fn shelf_of<R: Abort + AllocGlobal>(rt: &R) -> MemShelf {
    let alloc = rt.alloc();
    let path = PathText::of(alloc, "in/a.tif").expect(rt, "memory");
    let bytes = b"plate".to_vec(alloc).expect(rt, "memory");
    let mut files = Vec::new(alloc);
    files.push((path, bytes)).expect(rt, "memory");
    let failing = vec![in alloc; 3].expect(rt, "memory");
    MemShelf::new(alloc, files, failing)
}

/// Returns the path of a file of this test process in the directory for temporary files.
fn own_file(rt: &HostRuntime, name: &str) -> Result<PathBuf, Fail> {
    let name = format!(in rt.alloc(); "plateroom-{name}-{}", process::id(rt.process()))?;
    Ok(env::temp_dir(rt)?.join(rt.alloc(), name)?)
}

// Returns whether a file of these bytes, which are not short of three, compares with them, with a byte
// changed in their last third, and with those before that byte.
fn differs<S: Shelf>(rt: &HostRuntime, shelf: &mut S, path: &str, bytes: &[u8]) -> bool {
    let limit = bytes.len() as u64;
    let at = bytes.len() / 3 * 2;
    let Ok(mut other) = bytes.to_vec(rt.alloc()) else {
        return false;
    };
    let Some(byte) = other.as_mut_slice().get_mut(at) else {
        return false;
    };
    *byte ^= 1;
    compares(shelf, path, limit, bytes, Ok(None))
        && compares(shelf, path, limit, &other, Ok(Some(at as u64)))
        && compares(shelf, path, limit, &bytes[..at], Ok(Some(at as u64)))
}

// Writes a file of these bytes, and returns whether it loads with its length as the limit, and is too long
// for a limit of one byte less, also where it is compared.
fn reads<S: Shelf>(rt: &HostRuntime, shelf: &mut S, path: &str, bytes: &[u8]) -> bool {
    let limit = bytes.len() as u64;
    let less = limit.saturating_sub(1);
    fs::write(rt, path, bytes).is_ok()
        && loads(shelf, path, limit, Ok(bytes))
        && loads(shelf, path, less, Err(LoadFault::TooLong { limit: less }))
        && compares(
            shelf,
            path,
            less,
            bytes,
            Err(LoadFault::TooLong { limit: less }),
        )
        && differs(rt, shelf, path, bytes)
}

// The longer file takes more than one read. The directory / can be opened but not read.
fn reads_and_refuses<S: Shelf>(rt: &HostRuntime, shelf: &mut S, path: &str) -> [bool; 7] {
    [
        reads(rt, shelf, path, b"plate"),
        reads(rt, shelf, path, &[0x4B; 70_000]),
        fs::remove_file(rt, path).is_ok(),
        loads(shelf, path, 5, Err(LoadFault::Failed)),
        loads(shelf, "/", 5, Err(LoadFault::Failed)),
        compares(shelf, path, 5, b"plate", Err(LoadFault::Failed)),
        compares(shelf, "/", 5, b"plate", Err(LoadFault::Failed)),
    ]
}

// What a shelf of the machine reads and refuses at this path.
fn tries_a_shelf<L: FileLoader + Drop>(rt: &HostRuntime, files: L, path: &str) -> [bool; 7]
    requires { L.may }
{
    let mut shelf = HostShelf::new(files);
    reads_and_refuses(rt, &mut shelf, path)
}

#[test]
fn the_machines_shelf_reads_a_file_and_refuses_others(rt: HostRuntime) -> Result<(), Fail> {
    let path = own_file(&rt, "shelf")?;
    let text = path.as_path().to_str().ok_or("no text")?;
    check(&rt, &tries_a_shelf(&rt, rt.clone()?, text));
    Ok(())
}

// Bytes that differ at each of two successive pages: a share read at another offset shows.
fn long_bytes<R: AllocGlobal>(rt: &R) -> Result<Vec<u8>, Fail> {
    let mut bytes = Vec::new(rt.alloc());
    for page in 0..2_200u32 {
        let value = (page % 251) as u8;
        bytes.resize(bytes.len() + 4_096, value)?;
    }
    Ok(bytes)
}

// Whether a shelf of the machine reads a file of these bytes, which several threads load.
fn reads_long<L: FileLoader + Drop>(rt: &HostRuntime, files: L, path: &str, bytes: &[u8]) -> bool
    requires { L.may }
{
    let mut shelf = HostShelf::new(files);
    reads(rt, &mut shelf, path, bytes) && fs::remove_file(rt, path).is_ok()
}

#[test]
fn the_machines_shelf_reads_a_long_file(rt: HostRuntime) -> Result<(), Fail> {
    let path = own_file(&rt, "long")?;
    let text = path.as_path().to_str().ok_or("no text")?;
    let bytes = long_bytes(&rt)?;
    check(&rt, &[reads_long(&rt, rt.clone()?, text, bytes.as_slice())]);
    Ok(())
}

/// A file whose reads return three bytes each, and whose third read fails.
#[derive(Drop)]
struct Broken {
    reads: u8,
}

impl Read for Broken {
    fn read(&mut self, buf: &mut [u8]) -> io::Result<usize> {
        if self.reads >= 2 {
            return Err(io::Error::from(io::ErrorKind::Other));
        }
        self.reads += 1;
        Ok(buf.len().min(3))
    }
}

// Returns whether a read returns this many bytes, and this many calls have failed then.
fn counts(file: &mut Counted<Broken>, read: Option<usize>, faults: u64) -> bool {
    file.read(&mut [0; 9]) == read && file.faults() == faults
}

#[test]
fn a_read_that_fails_midway_is_counted(rt: HostRuntime) {
    let mut file = Counted::new(Broken { reads: 0 }, 4);
    let counted = [
        counts(&mut file, Some(3), 4),
        counts(&mut file, Some(3), 4),
        counts(&mut file, None, 5),
        counts(&mut file, None, 6),
    ];
    check(&rt, &counted);
}

/// Returns whether `put` succeeds, or fails in this way.
fn puts<S: Sink>(sink: &mut S, bytes: &[u8], want: Result<(), SinkFault>) -> bool {
    sink.put(bytes) == want
}

#[test]
fn a_sink_in_memory_fails_where_told(rt: HostRuntime) {
    let failing = vec![in rt.alloc(); 1].expect(&rt, "memory");
    let mut sink = MemSink::new(rt.alloc(), failing);
    let put = [
        puts(&mut sink, b"ab", Ok(())),
        puts(&mut sink, b"cd", Err(SinkFault::Failed)),
        puts(&mut sink, b"e", Ok(())),
        sink.bytes() == b"abe".as_slice(),
    ];
    check(&rt, &put);
}

// Creates this file, and returns whether `put` returns this for each of these pieces.
fn writes(rt: &HostRuntime, path: &str, pieces: &[&[u8]], want: Result<(), SinkFault>) -> bool {
    let Ok(file) = fs::create(rt, path) else {
        return false;
    };
    let mut sink = WriterSink::new(file);
    for piece in pieces {
        if !puts(&mut sink, piece, want) {
            return false;
        }
    }
    true
}

// Returns whether the file has these bytes, and removes it.
fn has(rt: &HostRuntime, path: &str, bytes: &[u8]) -> bool {
    let Ok(written) = fs::read(rt, path) else {
        return false;
    };
    fs::remove_file(rt, path).is_ok() && written.as_slice() == bytes
}

#[test]
fn a_writer_sink_writes_a_file_and_tells_a_full_device(rt: HostRuntime) -> Result<(), Fail> {
    let path = own_file(&rt, "sink")?;
    let text = path.as_path().to_str().ok_or("no text")?;
    let written = [
        writes(&rt, text, &[b"ab", b"", b"c"], Ok(())),
        has(&rt, text, b"abc"),
        writes(&rt, "/dev/full", &[b"abc"], Err(SinkFault::Failed)),
    ];
    check(&rt, &written);
    Ok(())
}

/// A writer that accepts at most two bytes a call, and whose flush may fail.
#[derive(Drop)]
struct Slow<'a> {
    into: &'a mut Vec<u8>,
    flushes: bool,
}

impl Write for Slow<'_> {
    fn write(&mut self, buf: &[u8]) -> io::Result<usize> {
        let count = buf.len().min(2);
        self.into.extend_from_slice(&buf[..count])?;
        Ok(count)
    }

    fn flush(&mut self) -> io::Result<()> {
        if self.flushes {
            Ok(())
        } else {
            Err(io::Error::from(io::ErrorKind::Other))
        }
    }
}

fn puts_slowly(
    into: &mut Vec<u8>,
    flushes: bool,
    bytes: &[u8],
    want: Result<(), SinkFault>,
) -> bool {
    let mut sink = WriterSink::new(Slow { into, flushes });
    puts(&mut sink, bytes, want)
}

#[test]
fn a_writer_sink_writes_again_and_tells_a_failed_flush(rt: HostRuntime) {
    let mut into = Vec::new(rt.alloc());
    let put = puts_slowly(&mut into, true, b"plate", Ok(()));
    let written = into.as_slice() == b"plate".as_slice();
    let flushed = puts_slowly(&mut into, false, b"s", Err(SinkFault::Failed));
    check(&rt, &[put, written, flushed]);
}

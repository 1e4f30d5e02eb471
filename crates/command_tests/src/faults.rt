// What `one` reports of its arguments, of its file, and of a shelf and sinks that fail.
ghost use Rattle.std.specs.Prelude.{None};

use crate::files::plain;
use crate::room::{ONE, check, does};
use pr_ports::{Sink, SinkFault};
use std::process::Abort;
use std::thread::Threads;
use std::time::Clock;
use test_room::{CALM, Desk, Ended, Failing, Held, are_empty, racks, tells};

// The line for arguments that are not a command.
const WORDS: &str = "plateroom: words\n";

// The lines where the shelf has no such file, or failed to load it.
const NO_A: &str = "plateroom: shelf: a.tif\n";

const NO_B: &str = "plateroom: shelf: b.tif\n";

// The shelf, the output or the error output fails at its first call.
const NO_SHELF: Failing = Failing {
    shelf: Some(0),
    ..CALM
};

const NO_OUT: Failing = Failing {
    out: Some(0),
    ..CALM
};

const NO_NOTE: Failing = Failing {
    note: Some(0),
    ..CALM
};

// The arguments, the calls that fail, then the expected status and line of the error output. Nothing is
// printed. Status 7 is an output or an error output that failed.
const CASES: [(&[&str], Failing, u8, &str); 10] = [
    (&[], CALM, 2, WORDS),
    (&["one"], CALM, 2, WORDS),
    (&["one", ""], CALM, 2, WORDS),
    (&["one", "a.tif", "b.tif"], CALM, 2, WORDS),
    (&["two", "a.tif"], CALM, 2, WORDS),
    (&["One", "a.tif"], CALM, 2, WORDS),
    (&["one", "b.tif"], CALM, 5, NO_B),
    (&["one", "a.tif"], NO_SHELF, 5, NO_A),
    (&["one", "a.tif"], NO_OUT, 7, ""),
    (&[], NO_NOTE, 7, ""),
];

#[test]
fn tells_what_is_wrong_and_what_failed(rt: HostRuntime) {
    for (n, (words, failing, status, line)) in CASES.iter().enumerate() {
        let want = Ended {
            status: *status,
            out: &[],
            line: *line,
        };
        check(&rt, n, does(&rt, words, Held::Image, *failing, &want));
    }
}

// Asserts that `one` prints nothing of this file and reports this line.
fn assert_refuses<R: Abort + AllocGlobal + Threads + Clock + Sync>(
    rt: &R,
    file: Held<'_>,
    line: &str,
) {
    let want = Ended {
        status: 4,
        out: &[],
        line,
    };
    assert!(rt; does(rt, &ONE, file, CALM, &want));
}

// The first 100 bytes contain only part of the directory.
#[test]
fn refuses_a_cut_directory(rt: HostRuntime) {
    let file = plain(&rt);
    let front = file.as_slice().get(..100).expect(&rt, "a part");
    let line = "plateroom: file a.tif: tag 0: directory\n";
    assert_refuses(&rt, Held::Bytes(front), line);
}

// Compression 5 is LZW.
#[test]
fn refuses_lzw(rt: HostRuntime) {
    let line = "plateroom: file a.tif: tag 259: compression\n";
    assert_refuses(&rt, Held::Changed(54, 5), line);
}

#[test]
fn refuses_a_file_that_is_too_long(rt: HostRuntime) {
    let line = "plateroom: file a.tif: tag 0: too long\n";
    assert_refuses(&rt, Held::TooLong, line);
}

// A sink that is out of memory.
#[derive(Drop)]
struct FullSink;

impl Sink for FullSink {
    ghost given = { λ _. None };

    ghost faults = { λ _. 0 };

    fn put(&mut self, _bytes: &[u8]) -> Result<(), SinkFault> {
        Err(SinkFault::Memory)
    }
}

// Whether `one` reports that it is out of memory where the output is, and leaves the racks unchanged.
fn tells_of_memory<R: Abort + AllocGlobal + Threads + Clock + Sync>(rt: &R) -> bool {
    let want = Ended {
        status: 6,
        out: &[],
        line: "plateroom: memory\n",
    };
    let files = [("a.tif", Held::Image)];
    let mut desk = Desk::new(rt.alloc(), &files, &[], &[], None);
    let mut racks = racks(rt.alloc(), [None; 2]).expect(rt, "memory");
    let full = &mut FullSink;
    let told = tells(
        rt,
        rt.alloc(),
        &ONE,
        &mut desk,
        racks.as_mut_slice(),
        full,
        None,
        &want,
    );
    told.expect(rt, "memory") && are_empty(&racks)
}

#[test]
fn tells_of_an_output_without_memory(rt: HostRuntime) {
    assert!(rt; tells_of_memory(&rt));
}

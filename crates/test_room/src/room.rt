// A call of the program with racks and sinks in memory.
ghost use Rattle.std.specs.Prelude.{◌≡◌, ◌≤◌, IfOk, is_some, length, map};
ghost use Rattle.pr_rack.specs.Rack.{none_begun};
ghost use Rattle.cmd_base.specs.Seen.{AreIdle};

use crate::plates::are_empty;
use plate_room::plate_main;
use pr_base::NoMemory;
use pr_ports::{MemSink, Shelf, Sink};
use pr_rack::{MemRack, Rack};
use std::alloc::Global;
use std::thread::Threads;
use std::time::Clock;

/// The most sites that an edition has.
pub const RACKS: usize = 16;

/// The calls that fail: of the shelf, of the first two racks, of the output, and of the error output.
#[derive(Clone, Copy)]
pub struct Failing {
    pub shelf: Option<u64>,
    pub racks: [Option<u64>; 2],
    pub out: Option<u64>,
    pub note: Option<u64>,
}

/// No call fails.
pub const CALM: Failing = Failing {
    shelf: None,
    racks: [None; 2],
    out: None,
    note: None,
};

/// How a command ends: its status, its output, and its line on the error output.
#[derive(Clone, Copy)]
pub struct Ended<'a> {
    pub status: u8,
    pub out: &'a [u8],
    pub line: &'a str,
}

/// Returns the number of a call as a list, which is empty for None.
fn calls_of(alloc: Global, call: Option<u64>) -> Result<Vec<u64>, NoMemory> {
    let mut calls = Vec::new(alloc);
    if let Some(call) = call {
        calls.push(call)?;
    }
    Ok(calls)
}

/// Returns a sink whose call with this number fails.
fn sink(alloc: Global, failing: Option<u64>) -> Result<MemSink, NoMemory> {
    let calls = calls_of(alloc, failing)?;
    Ok(MemSink::new(alloc, calls))
}

/// Returns the rack of a site, whose call with this number fails.
fn rack(alloc: Global, site: usize, failing: [Option<u64>; 2]) -> Result<MemRack, NoMemory>
    ensures { IfOk result (λ rack. map is_some rack.slots ≡ none_begun) }
{
    let call = match failing.get(site) {
        Some(call) => *call,
        None => None,
    };
    let calls = calls_of(alloc, call)?;
    Ok(MemRack::new(alloc, calls))
}

/// Returns sixteen racks, of the first two of which these calls fail.
pub fn racks(alloc: Global, failing: [Option<u64>; 2]) -> Result<Vec<MemRack>, NoMemory>
    ensures count { IfOk result (λ racks. length racks.items ≡ 16) }
    ensures idle { IfOk result (λ racks. AreIdle ⟦<MemRack as Rack>⟧ racks.items) }
{
    let mut racks = Vec::new(alloc);
    for site in 0..RACKS {
        racks.push(rack(alloc, site, failing)?)?;
    }
    Ok(racks)
}

/// Returns the arguments of a command line.
fn texts(alloc: Global, words: &[&str]) -> Result<Vec<String>, NoMemory> {
    let mut texts = Vec::new(alloc);
    for word in words {
        texts.push(String::from_str(alloc, word)?)?;
    }
    Ok(texts)
}

/// Runs a command with these arguments, and returns its status. Callers see nothing else.
fn answer<T: Threads + Clock + Sync, H: Shelf, R: Rack + Send, S: Sink, E: Sink>(
    rt: &T,
    alloc: Global,
    words: &[String],
    shelf: &mut H,
    racks: &mut [R],
    out: &mut S,
    note: &mut E,
) -> u8
    requires racks { 16 ≤ length racks.old }
    requires idle { AreIdle R.Rack racks.old }
{
    plate_main(rt, alloc, words, shelf, racks, out, note)
}

/// Returns whether a command with these arguments ends with this status and line. The error output's call
/// with the number `failing` fails.
pub fn tells<T: Threads + Clock + Sync, H: Shelf, R: Rack + Send, S: Sink>(
    rt: &T,
    alloc: Global,
    words: &[&str],
    shelf: &mut H,
    racks: &mut [R],
    out: &mut S,
    failing: Option<u64>,
    ended: &Ended<'_>,
) -> Result<bool, NoMemory>
    requires racks { 16 ≤ length racks.old }
    requires idle { AreIdle R.Rack racks.old }
{
    let words = texts(alloc, words)?;
    let mut note = sink(alloc, failing)?;
    let status = answer(rt, alloc, words.as_slice(), shelf, racks, out, &mut note);
    Ok(status == ended.status && note.bytes() == ended.line.as_bytes())
}

/// Returns whether a command with these arguments ends so. These calls of the two outputs fail.
pub fn prints<T: Threads + Clock + Sync, H: Shelf, R: Rack + Send>(
    rt: &T,
    alloc: Global,
    words: &[&str],
    shelf: &mut H,
    racks: &mut [R],
    failing: Failing,
    ended: &Ended<'_>,
) -> Result<bool, NoMemory>
    requires racks { 16 ≤ length racks.old }
    requires idle { AreIdle R.Rack racks.old }
{
    let mut out = sink(alloc, failing.out)?;
    let told = tells(
        rt,
        alloc,
        words,
        shelf,
        racks,
        &mut out,
        failing.note,
        ended,
    )?;
    Ok(told && out.bytes() == ended.out)
}

/// Runs a command with these arguments over sixteen new racks, and returns these if it ends so. These calls
/// of the racks and of the two outputs fail.
pub fn racks_after<T: Threads + Clock + Sync, H: Shelf>(
    rt: &T,
    alloc: Global,
    words: &[&str],
    shelf: &mut H,
    failing: Failing,
    ended: &Ended<'_>,
) -> Result<Option<Vec<MemRack>>, NoMemory> {
    let mut racks = racks(alloc, failing.racks)?;
    let printed = prints(
        rt,
        alloc,
        words,
        shelf,
        racks.as_mut_slice(),
        failing,
        ended,
    )?;
    Ok(if printed { Some(racks) } else { None })
}

/// Returns whether a command with these arguments ends so and leaves sixteen new racks unchanged. These calls
/// of the racks and of the two outputs fail.
pub fn leaves_racks<T: Threads + Clock + Sync, H: Shelf>(
    rt: &T,
    alloc: Global,
    words: &[&str],
    shelf: &mut H,
    failing: Failing,
    ended: &Ended<'_>,
) -> Result<bool, NoMemory> {
    match racks_after(rt, alloc, words, shelf, failing, ended)? {
        Some(racks) => Ok(are_empty(&racks)),
        None => Ok(false),
    }
}

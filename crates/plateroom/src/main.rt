// The program: passes its arguments, the machine's files and the standard streams to `plate_main`, and exits
// with its status.
#![tactic(auto)]

ghost use Rattle.std.specs.Prelude.{◌≡◌, ◌≤◌, IfOk, length};
ghost use Rattle.cmd_base.specs.Seen.{AreIdle};
ghost use Rattle.cmd_base.specs.Status.{IsRefusal, IsStatus};

use plate_room::{
    plate_main, plate_main_refused_out, plate_main_refused_racks, plate_main_statuses,
};
use pr_ports::{FileLoader, HostShelf, Sink, WriterSink};
use pr_rack::{HostRack, Rack};
use std::alloc::{AllocError, Global};
use std::env;
use std::env::Env;
use std::io::ErrorKind;
use std::process::ExitCode;
use std::thread::Threads;
use std::time::Clock;

/// The status for out of memory.
const MEMORY: u8 = 6;

/// The most sites that an edition has.
const RACKS: usize = 16;

/// Returns the arguments after the program's name. A command line that can't be read has none, so it is not a
/// command.
fn words<R: Env + AllocGlobal>(rt: &R) -> Result<Vec<String>, AllocError> {
    match env::args(rt) {
        Ok(args) => args.skip(1).collect(rt.alloc()),
        Err(error) if error.kind() == ErrorKind::OutOfMemory => Err(AllocError),
        Err(_) => Ok(Vec::new(rt.alloc())),
    }
}

/// Returns a rack of the machine's files for each site that an edition may have.
fn racks(rt: &HostRuntime) -> Result<Vec<HostRack<HostRuntime>>, AllocError>
    ensures count { IfOk result (λ racks. length racks.items ≡ 16) }
    ensures idle { IfOk result (λ racks. AreIdle ⟦<HostRack<HostRuntime> as Rack>⟧ racks.items) }
{
    let mut racks = Vec::new(rt.alloc());
    for _i in 0..RACKS {
        racks.push(HostRack::new(rt.clone()?))?;
    }
    Ok(racks)
}

/// Reports that memory ran out before the command began.
fn want_of_memory<R: Eprint>(rt: &R) -> ExitCode {
    let _ = rt.eprintln("plateroom: memory");
    ExitCode::from(MEMORY)
}

/// Runs the command over a shelf of the files that `files` loads. A shelf gets a proof only where the type of
/// what loads its files is a parameter.
fn run<T: Threads + Clock + Sync, L: FileLoader + Drop, R: Rack + Send, S: Sink, E: Sink>(
    rt: &T,
    alloc: Global,
    words: &[String],
    files: L,
    racks: &mut [R],
    out: &mut S,
    note: &mut E,
) -> u8
    requires may { L.may }
    requires racks { 16 ≤ length racks.old }
    requires idle { AreIdle R.Rack racks.old }
    ensures statuses { IsStatus result }
    ensures refused_racks { IsRefusal result → racks.new ≡ racks.old }
    ensures refused_out { IsRefusal result → S.given out.new ≡ S.given out.old }
{
    plate_main_statuses::<R>();
    plate_main_refused_racks::<R>();
    plate_main_refused_out::<R>();
    let mut shelf = HostShelf::new(files);
    plate_main(rt, alloc, words, &mut shelf, racks, out, note)
}

fn main(rt: HostRuntime) -> ExitCode {
    let Ok(words) = words(&rt) else {
        return want_of_memory(&rt);
    };
    let Ok(files) = rt.clone() else {
        return want_of_memory(&rt);
    };
    let Ok(mut racks) = racks(&rt) else {
        return want_of_memory(&rt);
    };
    let status = run(
        &rt,
        rt.alloc(),
        words.as_slice(),
        files,
        racks.as_mut_slice(),
        &mut WriterSink::new(rt.stdout()),
        &mut WriterSink::new(rt.stderr()),
    );
    ExitCode::from(status)
}

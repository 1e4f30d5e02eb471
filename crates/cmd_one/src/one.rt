// The command `one`: the black plate of one file.
ghost use Rattle.std.specs.Prelude.{◌≡◌};
ghost use Rattle.cmd_one.specs.OneFile.{PrintsPlate, named, one_rules, too_long as too_long_fault};
ghost use Rattle.cmd_base.specs.Loads.{Lengths, Loads};
ghost use Rattle.cmd_base.specs.Seen.{shelf_seen, sink_seen};
ghost use Rattle.cmd_base.specs.Task.{Told};
ghost use Rattle.cmd_base.specs.Writes.{Writes};

use crate::plate::{PlateFault, print_plate};
use cmd_base::{Refusal, Status, Stop, Whose};
use pr_base::{FaultKind, FileFault, PathText, TagFault};
use pr_ports::{LoadFault, Shelf, Sink};
use std::alloc::Global;

/// The most bytes that are read of a file: 512 MiB.
const FILE_LIMIT: u64 = 536_870_912;

/// Prints the black plate of one file, and returns the command's status.
pub fn print_one<H: Shelf, S: Sink>(
    alloc: Global,
    file: &str,
    shelf: &mut H,
    out: &mut S,
) -> Result<u8, Stop>
    ensures told { Told (one_rules file.now) (PrintsPlate file.now)
        (shelf_seen H.Shelf shelf.old shelf.new) (sink_seen S.Sink out.old out.new) result }
    ensures held { H.held shelf.new ≡ H.held shelf.old }
    ensures loads { Loads (shelf_seen H.Shelf shelf.old shelf.new) result }
    ensures lengths { Lengths (shelf_seen H.Shelf shelf.old shelf.new) result }
    ensures writes { Writes (sink_seen S.Sink out.old out.new) result }
{
    let name = PathText::of(alloc, file)?;
    let bytes = match shelf.load(file, FILE_LIMIT) {
        Ok(bytes) => bytes,
        Err(LoadFault::TooLong { .. }) => {
            return Err(Stop::Refused(Refusal::File(Whose::New, too_long(name))));
        }
        Err(LoadFault::Failed) => return Err(Stop::Refused(Refusal::Shelf(name))),
        Err(LoadFault::Memory) => return Err(Stop::Memory),
    };
    match print_plate(alloc, bytes.as_slice(), out) {
        Ok(()) => Ok(Status::Done.number()),
        Err(PlateFault::Refused(fault)) => {
            Err(Stop::Refused(Refusal::File(Whose::New, faulty(name, fault))))
        }
        Err(PlateFault::Memory) => Err(Stop::Memory),
        Err(PlateFault::Printing) => Err(Stop::Printing),
    }
}

/// Returns the fault of the file with this name.
fn faulty(file: PathText, fault: TagFault) -> FileFault
    ensures { result ≡ named file fault }
{
    FileFault {
        file,
        tag: fault.tag,
        kind: fault.kind,
    }
}

/// Returns the fault of a file that is longer than the limit.
fn too_long(file: PathText) -> FileFault
    ensures { result ≡ named file too_long_fault }
{
    let fault = TagFault {
        tag: 0,
        kind: FaultKind::TooLong,
    };
    faulty(file, fault)
}

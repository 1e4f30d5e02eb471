// Running a command.
ghost use Rattle.plate_room.specs.Command.{AsksDrill, command_of as meant, words_of};
ghost use Rattle.plate_room.specs.Ending.{Answered, seen_of};
ghost use Rattle.cmd_base.specs.Seen.{AreReady, shelf_seen, sink_seen};
ghost use Rattle.cmd_base.specs.Writes.{Writes};
ghost use Rattle.std.specs.Prelude.{◌≡◌, None};

use crate::command::{Command, command_of};
use cmd_base::{Refusal, Stop};
use cmd_one::print_one;
use cmd_replate::print_change;
use cmd_run::{print_drill, run_edition, run_with_keys};
use cmd_verify::print_check;
use pr_ports::{Shelf, Sink};
use pr_rack::Rack;
use std::alloc::Global;
use std::thread::Threads;
use std::time::Clock;

/// Runs the command that the arguments ask for, and returns its status.
pub(crate) fn answer<T: Threads + Clock + Sync, H: Shelf, R: Rack + Send, S: Sink>(
    rt: &T,
    alloc: Global,
    words: &[String],
    shelf: &mut H,
    racks: &mut [R],
    out: &mut S,
) -> Result<u8, Stop>
    requires { AreReady R.Rack racks.old }
    ensures answered { Answered R.Rack
        (seen_of (words_of words.now) (shelf_seen H.Shelf shelf.old shelf.new)
        racks.old racks.new (sink_seen S.Sink out.old out.new)) result }
    ensures held { H.held shelf.new ≡ H.held shelf.old }
    ensures writes { Writes (sink_seen S.Sink out.old out.new) result }
    ensures words_shelf { meant (words_of words.now) ≡ None → shelf.new ≡ shelf.old }
    ensures drill_shelf { AsksDrill (meant (words_of words.now)) → shelf.new ≡ shelf.old }
    ensures drill_racks { AsksDrill (meant (words_of words.now)) → racks.new ≡ racks.old }
{
    match command_of(words) {
        Some(Command::One { file }) => print_one(alloc, file, shelf, out),
        Some(Command::Run(edition)) => run_edition(rt, alloc, edition, shelf, racks, out),
        Some(Command::Keys(edition, keys)) => run_with_keys(
            rt, alloc, edition, keys, shelf, racks, out,
        ),
        Some(Command::Drill(drill)) => print_drill(rt, alloc, drill, out),
        Some(Command::Verify(asked)) => print_check(rt, alloc, asked, shelf, out),
        Some(Command::Replate(change)) => print_change(rt, alloc, change, shelf, racks, out),
        None => Err(Stop::Refused(Refusal::Words)),
    }
}

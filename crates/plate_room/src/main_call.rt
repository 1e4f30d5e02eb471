// The entry point of the command line.
ghost use Rattle.std.specs.Prelude.{◌≡◌, ◌≤◌, ◌≢◌, None, length};
ghost use Rattle.cmd_base.specs.Seen.{AreIdle, shelf_seen, sink_seen};
ghost use Rattle.plate_room.specs.Command.{AsksDrill, command_of, words_of};
ghost use Rattle.plate_room.specs.Ending.{Ending, seen_of};

use crate::answer::answer;
use cmd_base::tell;
use pr_ports::{Shelf, Sink};
use pr_rack::Rack;
use std::alloc::Global;
use std::thread::Threads;
use std::time::Clock;

/// Runs the command that the arguments `words` ask for: loads files from `shelf`, stores plates on `racks`,
/// writes its text to `out`, and writes the line of a refusal to `note`. Returns the exit status.
///
/// | status | when |
/// |---|---|
/// | 0 | done |
/// | 1 | done, but a site dropped out because its rack failed |
/// | 2 | the arguments aren't a command |
/// | 3 | the plan is refused |
/// | 4 | an input file is refused |
/// | 5 | the shelf failed |
/// | 6 | out of memory |
/// | 7 | `out` or `note` failed |
/// | 8 | done, but a plate on the shelf doesn't match |
///
/// A drill uses its own files and racks, in memory, so it never ends with status 1, 3, 4 or 5.
pub fn plate_main<T: Threads + Clock + Sync, H: Shelf, R: Rack + Send, S: Sink, E: Sink>(
    rt: &T,
    alloc: Global,
    words: &[String],
    shelf: &mut H,
    racks: &mut [R],
    out: &mut S,
    note: &mut E,
) -> u8
    requires racks { 16 ≤ length racks.old }
    requires idle { AreIdle R.Rack racks.old }
    // A call ends in one of six ways. What each implies is a law, `plate_main_done` and others in laws.rt.
    ensures ending { Ending R.Rack
        (seen_of (words_of words.now) (shelf_seen H.Shelf shelf.old shelf.new)
        racks.old racks.new (sink_seen S.Sink out.old out.new))
        (sink_seen E.Sink note.old note.new) result }
    // What the shelf holds is unchanged, and only a call that ends with 7 counts a failure of `out`.
    ensures held { H.held shelf.new ≡ H.held shelf.old }
    ensures out_faults { result ≢ 7 → S.faults out.new ≡ S.faults out.old }
    // Arguments that aren't a command load nothing. A drill changes neither the shelf nor the racks.
    ensures words_shelf { command_of (words_of words.now) ≡ None → shelf.new ≡ shelf.old }
    ensures drill_shelf { AsksDrill (command_of (words_of words.now)) → shelf.new ≡ shelf.old }
    ensures drill_racks { AsksDrill (command_of (words_of words.now)) → racks.new ≡ racks.old }
{
    match answer(rt, alloc, words, shelf, racks, out) {
        Ok(status) => status,
        Err(stop) => tell(alloc, &stop, note),
    }
}

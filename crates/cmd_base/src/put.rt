// Printing the text of a command.
ghost use Rattle.cmd_base.specs.Seen.{sink_seen};
ghost use Rattle.cmd_base.specs.Status.{number_of};
ghost use Rattle.cmd_base.specs.Task.{Puts};
ghost use Rattle.cmd_base.specs.Writes.{Writes};

use crate::refusal::Stop;
use crate::status::Status;
use pr_ports::{Sink, SinkFault};

/// Prints the whole text of a command and returns the command's exit status.
pub fn put_text<S: Sink>(text: &[u8], status: Status, out: &mut S) -> Result<u8, Stop>
    ensures puts { Puts text.now (number_of status) (sink_seen S.Sink out.old out.new) result }
    ensures writes { Writes (sink_seen S.Sink out.old out.new) result }
{
    match out.put(text) {
        Ok(()) => Ok(status.number()),
        Err(SinkFault::Failed) => Err(Stop::Printing),
        Err(SinkFault::Memory) => Err(Stop::Memory),
    }
}

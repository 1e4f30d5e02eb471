// The writer's turn at a ring: it publishes rows of a feed until it would wait too often.
ghost use Rattle.std.specs.Prelude.{◌≡◌, ◌+◌, ◌<◌, ◌≤◌, ℕ, Some, drop, length, IfErr, OnErr, OnOk};
ghost use Rattle.ring_lanes.specs.Writer.{HasRoom, IsFull, LooksOnce};
ghost use Rattle.ring_turns.specs.Feeding.{Grows, HasRows, IfWaiting, IsFed, IsKnownWithin, OnDone};
ghost use Rattle.ring_turns.specs.Feeding.{SomeJoined, WaitsFor, WaitsNoMore};

use crate::ahead::{Ahead, AsAsked};
use pr_base::{Deal, RowFeed};
use ring_lanes::{Full, Writer};

/// How a turn of the writer ended. It is no end of a reader's turn: the writer names the reader that it waits
/// for, never leaves, and takes no memory.
#[derive(Clone, Copy, PartialEq, Eq)]
pub enum FeedEnd {
    /// Reader number `site`, a site's or a further one's, has yet to close row `at`, whose place the next row
    /// takes. As many looks of the turn found their place taken as the patience allows.
    Waiting { site: u32, at: u64 },
    /// All rows are published, or the writer knows that every reader left.
    Done,
}

/// The length of the longest row, in bytes.
const MOST_ROW: usize = 8258;

/// Publishes the next rows of a feed, until all are published, or every reader has left, or `patience` looks
/// found the place of the next row taken. Takes no memory.
pub fn feed_turn<D: Deal, F: RowFeed>(
    writer: &mut Writer<'_, D>,
    feed: &mut F,
    patience: u32,
) -> FeedEnd
    requires feed { F.left feed.old ≡ drop writer.old.head writer.old.ring.rows }
    requires rows { HasRows writer.old.ring }
    requires patience { 0 < patience }
    ensures feed { F.left feed.new ≡ drop writer.new.head writer.new.ring.rows }
    ensures done { OnDone result (IsFed writer.new) }
    ensures not_done { IfWaiting result (λ site at. IsFed writer.new → ⊥) }
    ensures waiting { IfWaiting result (WaitsFor writer.old writer.new patience) }
    ensures waits { WaitsNoMore patience writer.old writer.new result }
    ensures grows { Grows writer.old writer.new }
    ensures known { IsKnownWithin writer.new }
    ensures within { writer.new.head ≤ writer.old.ring.total }
    ensures gets_on { writer.old.head < writer.old.ring.total → SomeJoined writer.old
        → HasRoom writer.old → writer.old.head < writer.new.head }
    ensures same { writer.new ≡ record writer.old {
      head = writer.new.head;
      known = writer.new.known;
      loads = writer.new.loads;
    } }
{
    feed_ahead(writer, &AsAsked, feed, patience)
}

/// Does what `feed_turn` does. Before it looks for the place of a row, `ahead` may make rows of the feed.
pub fn feed_ahead<D: Deal, F: RowFeed, A: Ahead<F>>(
    writer: &mut Writer<'_, D>,
    ahead: &A,
    feed: &mut F,
    patience: u32,
) -> FeedEnd
    requires ahead { A.may }
    requires feed { F.left feed.old ≡ drop writer.old.head writer.old.ring.rows }
    requires rows { HasRows writer.old.ring }
    requires patience { 0 < patience }
    ensures feed { F.left feed.new ≡ drop writer.new.head writer.new.ring.rows }
    ensures done { OnDone result (IsFed writer.new) }
    ensures not_done { IfWaiting result (λ site at. IsFed writer.new → ⊥) }
    ensures waiting { IfWaiting result (WaitsFor writer.old writer.new patience) }
    ensures waits { WaitsNoMore patience writer.old writer.new result }
    ensures grows { Grows writer.old writer.new }
    ensures known { IsKnownWithin writer.new }
    ensures within { writer.new.head ≤ writer.old.ring.total }
    ensures gets_on { writer.old.head < writer.old.ring.total → SomeJoined writer.old
        → HasRoom writer.old → writer.old.head < writer.new.head }
    ensures same { writer.new ≡ record writer.old {
      head = writer.new.head;
      known = writer.new.known;
      loads = writer.new.loads;
    } }
{
    let mut buffer = [0; MOST_ROW];
    let row = &mut buffer[..writer.row_len()];
    let mut waits = 0;
    while writer.head() < writer.total() && writer.joined() > 0 {
        ahead.make(feed);
        let Err(Full { site, at }) = publish_next(writer, feed, row) else {
            continue;
        };
        waits += 1;
        if waits == patience {
            return FeedEnd::Waiting { site, at };
        }
        writer.pause(waits);
    }
    FeedEnd::Done
}

/// Publishes the next row of a feed if there is room for it. `row` is a buffer of a row's length.
fn publish_next<D: Deal, F: RowFeed>(
    writer: &mut Writer<'_, D>,
    feed: &mut F,
    row: &mut [u8],
) -> Result<(), Full>
    requires some { writer.old.head < writer.old.ring.total }
    requires feed { F.left feed.old ≡ drop writer.old.head writer.old.ring.rows }
    requires rows { HasRows writer.old.ring }
    requires row { length row.old ≡ writer.old.ring.row_len }
    ensures feed { F.left feed.new ≡ drop writer.new.head writer.new.ring.rows }
    ensures published { OnOk result (writer.new.head ≡ writer.old.head + 1) }
    ensures head { OnErr result (writer.new.head ≡ writer.old.head) }
    ensures full { IfErr result (IsFull writer.old writer.new) }
    ensures looks { LooksOnce writer.old writer.new }
    ensures gets_on { OnErr result (HasRoom writer.old → ⊥) }
    ensures same { writer.new ≡ record writer.old {
      head = writer.new.head;
      known = writer.new.known;
      loads = writer.new.loads;
    } }
{
    let pass = writer.room()?;
    feed.next(row);
    writer.publish(pass, row);
    Ok(())
}

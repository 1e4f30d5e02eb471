// The rounds of a run: in each the ends of the ring exchange notes, and then the writer and the readers take
// their turns in parallel.
ghost use Rattle.std.specs.Prelude.{◌≡◌, ◌<◌, false, length};
ghost use Rattle.std.specs.List.{list_any};
ghost use Rattle.pr_rack.specs.Told.{all_told};
ghost use Rattle.ring_turns.specs.Feeding.{MayFeed};
ghost use Rattle.ring_run.specs.Round.{AreAtTable, AreEndsOf, AreTold, KnowsAll, KnowsMore};
ghost use Rattle.ring_run.specs.Round.{Falls, StaySeated};
ghost use Rattle.ring_run.specs.Seat.{are_going as are_going_lem, is_going, is_stopped};
ghost use Rattle.ring_run.specs.Served.{AreSomeSeated};

use crate::seat::Seat;
use crate::writer::RunWriter;
use pr_base::Deal;
use pr_rack::Rack;
use press_job::BandFeed;
use ring_lanes::Writer;
use ring_turns::{Pace, Ways, turn_all};
use std::thread::Threads;
use std::time::Clock;

/// Hands a note of each reader to the writer, even of one that has left.
fn tell_writer<D: Deal>(writer: &mut Writer<'_, D>, seats: &mut [Seat<'_, '_, D>])
    requires table { AreAtTable writer.old seats.old }
    ensures knows { KnowsAll writer.new.known seats.new }
    ensures seats { seats.new ≡ seats.old }
    ensures more { KnowsMore writer.old.known writer.new.known }
    ensures same { writer.new ≡ record writer.old { known = writer.new.known; loads = writer.new.loads } }
{
    for i in 0..seats.len() {
        let note = seats[i].note();
        writer.learn(note);
    }
}

/// Hands a note of the writer to each reader that continues.
fn tell_readers<D: Deal>(writer: &mut Writer<'_, D>, seats: &mut [Seat<'_, '_, D>])
    requires table { AreAtTable writer.old seats.old }
    ensures told { AreTold writer.old seats.old seats.new }
    ensures same { writer.new ≡ writer.old }
{
    for i in 0..seats.len() {
        seats[i].hear(writer);
    }
}

/// Runs a round. Where a reader continues, fewer rows are yet to be published or to be taken afterwards.
fn round<T: Threads + Clock + Sync, F: BandFeed + Send, D: Deal + Sync, R: Rack + Send>(
    rt: &T,
    writer: &mut RunWriter<'_, '_, '_, T, F, D>,
    seats: &mut [Seat<'_, '_, D>],
    racks: &mut [R],
    pace: Pace,
    ways: &mut Ways,
)
    requires feed { MayFeed (F.left writer.old.feed.now) writer.old.end }
    requires places { 0 < writer.old.end.ring.places }
    requires ends { AreEndsOf writer.old.end seats.old }
    requires some { AreSomeSeated (all_told R.Rack racks.old) seats.old }
    requires patience { 0 < pace.patience }
    ensures feed { MayFeed (F.left writer.new.feed.now) writer.new.end }
    ensures ring { writer.new.end.ring ≡ writer.old.end.ring }
    ensures ends { AreEndsOf writer.new.end seats.new }
    ensures seated { StaySeated (all_told R.Rack racks.old) (all_told R.Rack racks.new) seats.old seats.new }
    ensures falls { Falls writer.old.end seats.old writer.new.end seats.new }
{
    tell_writer(&mut writer.end, seats);
    tell_readers(&mut writer.end, seats);
    turn_all(rt, pace, ways, writer, racks, seats);
}

/// Runs round after round, until each reader has left or has all rows, or until a site runs out of memory.
pub(crate) fn run_rounds<
    T: Threads + Clock + Sync,
    F: BandFeed + Send,
    D: Deal + Sync,
    R: Rack + Send,
>(
    rt: &T,
    writer: &mut RunWriter<'_, '_, '_, T, F, D>,
    seats: &mut [Seat<'_, '_, D>],
    racks: &mut [R],
    patience: u32,
)
    requires feed { MayFeed (F.left writer.old.feed.now) writer.old.end }
    requires places { 0 < writer.old.end.ring.places }
    requires ends { AreEndsOf writer.old.end seats.old }
    requires some { AreSomeSeated (all_told R.Rack racks.old) seats.old }
    requires patience { 0 < patience }
    ensures over { are_going_lem seats.new ≡ false }
    ensures ring { writer.new.end.ring ≡ writer.old.end.ring }
    ensures ends { AreEndsOf writer.new.end seats.new }
    ensures seated { StaySeated (all_told R.Rack racks.old) (all_told R.Rack racks.new) seats.old seats.new }
{
    let pace = Pace::of(rt, patience, writer.end.row_len());
    let mut ways = Ways::new();
    while are_going(seats) {
        round(rt, writer, seats, racks, pace, &mut ways);
    }
}

/// Returns whether some reader continues, and no site ran out of memory.
fn are_going<D: Deal>(seats: &[Seat<'_, '_, D>]) -> bool
    ensures { result ≡ are_going_lem seats.now }
{
    let going = some_going(seats);
    let stopped = some_stopped(seats);
    going && !stopped
}

/// Returns whether some reader continues.
fn some_going<D: Deal>(seats: &[Seat<'_, '_, D>]) -> bool
    ensures { result ≡ list_any (λ seat. is_going seat.reader) seats.now }
{
    seats.iter().any(|seat| seat.goes_on())
}

/// Returns whether some site ran out of memory.
fn some_stopped<D: Deal>(seats: &[Seat<'_, '_, D>]) -> bool
    ensures { result ≡ list_any (λ seat. is_stopped seat.role) seats.now }
{
    seats.iter().any(|seat| seat.is_stopped())
}

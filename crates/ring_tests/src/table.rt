// The seats of a ring's table: each load returns the number stored last.
ghost use Rattle.std.specs.Prelude.{◌≡◌, ◌≢◌, ◌+◌, ◌<◌, IsTrue, MatchBool};
ghost use Rattle.ring_rule.specs.Views.{left_word};
ghost use Rattle.ring_tests.specs.Numbered.{IsIdleReader, IsIdleWriter, IsOffered, served};

use crate::deal::{Numbered, row_bytes};
use ring_rule::{ReaderSeat, RingTable, Seats, WriterSeat};
use std::process::Abort;

fn has_room(cursor: u64, head: u64) -> bool
    ensures { IsTrue result → cursor ≢ left_word → head < cursor + 2 }
{
    cursor == u64::MAX || head.saturating_sub(cursor) < 2
}

// Fills the lane of a reader that the writer looked at, unless the reader left.
fn serve(writer: &mut WriterSeat<'_, Numbered>, head: u64, reader: u32, cursor: u64)
    requires { IsOffered 2 2 5 head reader cursor writer.old.view }
    ensures { writer.new ≡ record writer.old { view = served cursor reader writer.old.view } }
{
    if cursor != u64::MAX {
        writer.fill(reader, &row_bytes(head));
    }
}

// Publishes the next of five rows if each of two readers left or has room in its two places.
fn write(writer: &mut WriterSeat<'_, Numbered>, head: u64) -> bool
    requires { IsIdleWriter 2 2 5 head writer.old.view }
    ensures { MatchBool result
        (IsIdleWriter 2 2 5 (head + 1) writer.new.view)
        (IsIdleWriter 2 2 5 head writer.new.view) }
{
    let first = writer.look(0);
    let second = writer.look(1);
    if head >= 5 {
        return false;
    }
    if !has_room(first, head) {
        return false;
    }
    if !has_room(second, head) {
        return false;
    }
    serve(writer, head, 0, first);
    serve(writer, head, 1, second);
    writer.store_head();
    true
}

// Publishes the next row, for which there is room.
fn publish(rt: &impl Abort, writer: &mut WriterSeat<'_, Numbered>, head: u64)
    requires { IsIdleWriter 2 2 5 head writer.old.view }
    ensures { IsIdleWriter 2 2 5 (head + 1) writer.new.view }
{
    assert!(rt; write(writer, head), "row {head}");
}

// Requires that the next row cannot be published: there is no room, or there are no more rows.
fn is_full(rt: &impl Abort, writer: &mut WriterSeat<'_, Numbered>, head: u64)
    requires { IsIdleWriter 2 2 5 head writer.old.view }
    ensures { IsIdleWriter 2 2 5 head writer.new.view }
{
    assert!(rt; !write(writer, head), "row {head}");
}

// Takes the next row, which is published, compares it, and gives it back.
fn read(rt: &impl Abort, reader: &mut ReaderSeat<'_, Numbered>, taken: u64)
    requires { IsIdleReader 5 taken reader.old.view }
    ensures { IsIdleReader 5 (taken + 1) reader.new.view }
{
    assert!(rt; reader.see() > taken);
    let row = reader.take();
    assert!(rt; row.number() == taken && row.bytes() == row_bytes(taken).as_slice());
    reader.give(row);
    reader.store_cursor();
}

#[test]
fn rows_pass_twice_round_and_a_reader_leaves(rt: HostRuntime) {
    let deal = Numbered { total: 5 };
    let mut table = RingTable::new(rt.alloc(), &deal, 2, 2).expect(&rt, "no table");
    let Seats {
        writer,
        mut readers,
    } = table.seats(rt.alloc()).expect(&rt, "no seats");
    let mut seats = Three {
        writer,
        second: readers.pop().expect(&rt, "no reader"),
        first: readers.pop().expect(&rt, "no reader"),
    };
    pass(&rt, &mut seats);
}

// The seats of the writer and of both readers.
#[derive(Drop)]
struct Three<'t> {
    writer: WriterSeat<'t, Numbered>,
    first: ReaderSeat<'t, Numbered>,
    second: ReaderSeat<'t, Numbered>,
}

// The writer waits for the slower of two readers, and skips one that left.
fn pass(rt: &impl Abort, seats: &mut Three<'_>)
    requires writer { IsIdleWriter 2 2 5 0 seats.old.writer.view }
    requires first { IsIdleReader 5 0 seats.old.first.view }
    requires second { IsIdleReader 5 0 seats.old.second.view }
{
    publish(rt, &mut seats.writer, 0);
    assert!(rt; seats.second.see() == 1);
    publish(rt, &mut seats.writer, 1);
    assert!(rt; seats.second.see() == 2);
    assert!(rt; seats.writer.look(1) == 0);
    wait(rt, seats);
}

// Both places are full.
fn wait(rt: &impl Abort, seats: &mut Three<'_>)
    requires writer { IsIdleWriter 2 2 5 2 seats.old.writer.view }
    requires first { IsIdleReader 5 0 seats.old.first.view }
    requires second { IsIdleReader 5 0 seats.old.second.view }
{
    is_full(rt, &mut seats.writer, 2);
    read(rt, &mut seats.first, 0);
    is_full(rt, &mut seats.writer, 2);
    read(rt, &mut seats.second, 0);
    assert!(rt; seats.writer.look(1) == 1);
    publish(rt, &mut seats.writer, 2);
    seats.second.store_left();
    finish(rt, &mut seats.writer, &mut seats.first);
}

// The second reader took one row and left.
fn finish(
    rt: &impl Abort,
    writer: &mut WriterSeat<'_, Numbered>,
    first: &mut ReaderSeat<'_, Numbered>,
)
    requires writer { IsIdleWriter 2 2 5 3 writer.old.view }
    requires first { IsIdleReader 5 1 first.old.view }
{
    is_full(rt, writer, 3);
    read(rt, first, 1);
    publish(rt, writer, 3);
    read(rt, first, 2);
    publish(rt, writer, 4);
    is_full(rt, writer, 5);
    assert!(rt; writer.look(1) == u64::MAX);
}

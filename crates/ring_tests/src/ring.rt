// Rings in one thread: which end waits for which, and that a load returns the number stored last.
ghost use Rattle.std.specs.Prelude.{◌≡◌, ◌+◌, ◌<◌, ◌≤◌, OnErr, OnOk, length, true};
ghost use Rattle.ring_rule.specs.Views.{ring_of};
ghost use Rattle.ring_tests.specs.Numbered.{IsDrawing, IsFeeding, numbered_rows};

use crate::deal::{Numbered, are_all, is_row, row_bytes};
use pr_base::Deal;
use ring_lanes::{Ends, Full, NotYet, Reader, Ring, Writer, open_ring};
use std::process::Abort;
use std::thread;
use std::thread::Threads;

/// Publishes the next row if there is room for it.
pub fn publish_next(writer: &mut Writer<'_, Numbered>, total: u64, head: u64) -> Result<(), Full>
    requires feeding { IsFeeding total head writer.old }
    requires row { head < total }
    ensures published { OnOk result (IsFeeding total (head + 1) writer.new) }
    ensures full { OnErr result (IsFeeding total head writer.new) }
    ensures table { writer.new.table ≡ writer.old.table }
{
    let pass = writer.room()?;
    writer.publish(pass, &row_bytes(head));
    Ok(())
}

/// Takes the next row if it is published, compares it, and gives it back.
pub fn draw_next(
    rt: &impl Abort,
    reader: &mut Reader<'_, Numbered>,
    total: u64,
    cursor: u64,
) -> Result<(), NotYet>
    requires { IsDrawing total cursor reader.old }
    ensures drawn { OnOk result (IsDrawing total (cursor + 1) reader.new) }
    ensures not_yet { OnErr result (IsDrawing total cursor reader.new) }
    ensures table { reader.new.table ≡ reader.old.table }
{
    let held = reader.open()?;
    assert!(rt; is_row(&held, cursor, &row_bytes(cursor), reader.source()));
    reader.close(held);
    Ok(())
}

/// Opens a ring of the rows of a deal.
pub fn opened<'d, R: Abort + AllocGlobal>(
    rt: &R,
    deal: &'d Numbered,
    places: u32,
    readers: u32,
) -> Ring<'d, Numbered>
    requires rows { deal.now.total ≤ 2000 }
    requires places { (1 ≤ places) × (places ≤ 3) }
    requires readers { (1 ≤ readers) × (readers ≤ 3) }
    ensures ring { result.ring ≡ ring_of places readers (numbered_rows deal.now.total) 2 }
    ensures fresh { result.fresh ≡ true }
{
    open_ring(rt.alloc(), deal, places, readers).expect(rt, "no ring")
}

// Returns the writer and both readers of a new ring of three rows.
fn ends_of<'r, R: Abort + AllocGlobal>(
    rt: &R,
    ring: &'r mut Ring<'_, Numbered>,
) -> (
    Writer<'r, Numbered>,
    Reader<'r, Numbered>,
    Reader<'r, Numbered>,
)
    requires fresh { ring.old.fresh ≡ true }
    requires readers { ring.old.ring.readers ≡ 2 }
    requires rows { ring.old.ring.rows ≡ numbered_rows 3 }
    requires total { ring.old.ring.total ≡ length ring.old.ring.rows }
    ensures writer { IsFeeding 3 0 result.0 }
    ensures first { IsDrawing 3 0 result.1 }
    ensures second { IsDrawing 3 0 result.2 }
    ensures table { result.2.table ≡ result.0.table }
{
    let Ends {
        writer,
        mut readers,
    } = ring.ends(rt.alloc()).expect(rt, "no ends");
    let second = readers.pop().expect(rt, "no reader");
    let first = readers.pop().expect(rt, "no reader");
    (writer, first, second)
}

#[test]
fn the_writer_waits_for_the_slowest_reader(rt: HostRuntime) {
    let deal = Numbered { total: 3 };
    let mut ring = opened(&rt, &deal, 2, 2);
    let (mut writer, mut first, second) = ends_of(&rt, &mut ring);
    wait(&rt, &mut writer, &mut first);
    assert!(rt; ends_cross(&rt, writer, second) == (2, 0));
}

// Publishes the next of three rows.
fn publish(rt: &impl Abort, writer: &mut Writer<'_, Numbered>, head: u64)
    requires feeding { IsFeeding 3 head writer.old }
    requires row { head < 3 }
    ensures feeding { IsFeeding 3 (head + 1) writer.new }
    ensures table { writer.new.table ≡ writer.old.table }
{
    let Ok(()) = publish_next(writer, 3, head) else {
        rt.abort()
    };
}

// Requires that there is no room for the next of three rows.
fn is_full(rt: &impl Abort, writer: &mut Writer<'_, Numbered>, head: u64, full: Full)
    requires feeding { IsFeeding 3 head writer.old }
    requires row { head < 3 }
    ensures feeding { IsFeeding 3 head writer.new }
    ensures table { writer.new.table ≡ writer.old.table }
{
    let Err(found) = publish_next(writer, 3, head) else {
        rt.abort()
    };
    assert!(rt; found == full);
}

// Takes the next of three rows.
fn draw(rt: &impl Abort, reader: &mut Reader<'_, Numbered>, cursor: u64)
    requires { IsDrawing 3 cursor reader.old }
    ensures drawing { IsDrawing 3 (cursor + 1) reader.new }
    ensures table { reader.new.table ≡ reader.old.table }
{
    let Ok(()) = draw_next(rt, reader, 3, cursor) else {
        rt.abort()
    };
}

// Two places. The writer waits until both readers have closed the first row.
fn wait(rt: &impl Abort, writer: &mut Writer<'_, Numbered>, first: &mut Reader<'_, Numbered>)
    requires feeding { IsFeeding 3 0 writer.old }
    requires drawing { IsDrawing 3 0 first.old }
{
    publish(rt, writer, 0);
    publish(rt, writer, 1);
    is_full(rt, writer, 2, Full { site: 0, at: 0 });
    draw(rt, first, 0);
    is_full(rt, writer, 2, Full { site: 1, at: 0 });
}

// Requires that the ends can be sent to threads, whatever the deal.
fn ends_cross<D: Deal + Sync>(
    rt: &impl Threads,
    writer: Writer<'_, D>,
    reader: Reader<'_, D>,
) -> (u64, u64) {
    thread::join(rt, move || writer.head(), move || reader.cursor())
}

#[test]
fn a_row_that_is_held_is_not_overwritten(rt: HostRuntime) {
    let deal = Numbered { total: 3 };
    let mut ring = opened(&rt, &deal, 2, 1);
    let Ends {
        mut writer,
        mut readers,
    } = ring.ends(rt.alloc()).expect(&rt, "no ends");
    let mut reader = readers.pop().expect(&rt, "no reader");
    assert!(rt; tells_its_rows(&writer));
    hold(&rt, &mut writer, &mut reader);
}

fn tells_its_rows(writer: &Writer<'_, Numbered>) -> bool {
    writer.total() == 3 && writer.row_len() == 2
}

// The first of three rows is held while the second is published; then no place is free.
fn hold(rt: &impl Abort, writer: &mut Writer<'_, Numbered>, reader: &mut Reader<'_, Numbered>)
    requires feeding { IsFeeding 3 0 writer.old }
    requires drawing { IsDrawing 3 0 reader.old }
    requires table { reader.old.table ≡ writer.old.table }
{
    none_yet(rt, reader);
    publish(rt, writer, 0);
    let Ok(held) = reader.open() else { rt.abort() };
    assert!(rt; held.number() == 0);
    publish(rt, writer, 1);
    is_full(rt, writer, 2, Full { site: 0, at: 0 });
    reader.close(held);
    learn(rt, writer, reader);
}

// The reader closed that row, and learns that the third was published.
fn learn(rt: &impl Abort, writer: &mut Writer<'_, Numbered>, reader: &mut Reader<'_, Numbered>)
    requires feeding { IsFeeding 3 2 writer.old }
    requires drawing { IsDrawing 3 1 reader.old }
    requires table { reader.old.table ≡ writer.old.table }
{
    publish(rt, writer, 2);
    let note = writer.tell();
    reader.learn(note);
    assert!(rt; reader.cursor() == 1);
}

// Requires that the first row is not yet published.
fn none_yet(rt: &impl Abort, reader: &mut Reader<'_, Numbered>)
    requires { IsDrawing 3 0 reader.old }
    ensures drawing { IsDrawing 3 0 reader.new }
    ensures table { reader.new.table ≡ reader.old.table }
{
    let Err(found) = draw_next(rt, reader, 3, 0) else {
        rt.abort()
    };
    assert!(rt; found == NotYet { head: 0 });
}

#[test]
fn the_writer_passes_over_a_reader_that_left(rt: HostRuntime) {
    let deal = Numbered { total: 3 };
    let mut ring = opened(&rt, &deal, 1, 2);
    let (mut writer, mut first, mut second) = ends_of(&rt, &mut ring);
    leave(&rt, &mut writer, &mut first, &mut second);
}

// One place. The second reader takes one row and leaves.
fn leave(
    rt: &impl Abort,
    writer: &mut Writer<'_, Numbered>,
    first: &mut Reader<'_, Numbered>,
    second: &mut Reader<'_, Numbered>,
)
    requires feeding { IsFeeding 3 0 writer.old }
    requires first { IsDrawing 3 0 first.old }
    requires second { IsDrawing 3 0 second.old }
    requires table { second.old.table ≡ writer.old.table }
{
    publish(rt, writer, 0);
    draw(rt, first, 0);
    draw(rt, second, 0);
    publish(rt, writer, 1);
    draw(rt, first, 1);
    is_full(rt, writer, 2, Full { site: 1, at: 1 });
    second.leave();
    left(rt, writer, second);
}

// The writer learns that the reader left.
fn left(rt: &impl Abort, writer: &mut Writer<'_, Numbered>, second: &mut Reader<'_, Numbered>)
    requires feeding { IsFeeding 3 2 writer.old }
    requires table { second.old.table ≡ writer.old.table }
{
    assert!(rt; tells_one_row(second));
    assert!(rt; writer.joined() == 2);
    let note = second.tell();
    writer.learn(note);
    assert!(rt; writer.joined() == 1);
    publish(rt, writer, 2);
    assert!(rt; writer.head() == 3);
}

fn tells_one_row(reader: &Reader<'_, Numbered>) -> bool {
    are_all(&[
        reader.number() == 1,
        reader.cursor() == 1,
        reader.total() == 3,
        !reader.joined(),
    ])
}

// A ring with its ends in several threads.
ghost use Rattle.std.specs.Prelude.{◌+◌, ◌<◌, ◌≤◌};
ghost use Rattle.ring_tests.specs.Numbered.{IsDrawing, IsFeeding};

use crate::deal::Numbered;
use crate::ring::{draw_next, opened, publish_next};
use ring_lanes::{Ends, Reader, Writer};
use std::process::Abort;
use std::thread;
use std::thread::Threads;

// Publishes the next row if there is room. Returns how many rows are then published.
fn feed_once(writer: &mut Writer<'_, Numbered>, total: u64, head: u64) -> u64
    requires feeding { IsFeeding total head writer.old }
    requires row { head < total }
    ensures feeding { IsFeeding total result writer.new }
    ensures within { result ≤ total }
{
    if let Ok(()) = publish_next(writer, total, head) {
        return head + 1;
    }
    thread::yield_now();
    head
}

// Publishes rows until all are published. Returns how many are.
fn feed_rows(mut writer: Writer<'_, Numbered>, total: u64, turns: u64) -> u64
    requires { IsFeeding total 0 writer }
{
    let mut head = 0;
    for _turn in 0..turns {
        if head == total {
            break;
        }
        head = feed_once(&mut writer, total, head);
    }
    head
}

// Yields to other threads this many times.
fn pause(times: u64) {
    for _time in 0..times {
        thread::yield_now();
    }
}

// Takes the next row if it is published. Returns how many rows are then taken.
fn draw_once(
    rt: &impl Abort,
    reader: &mut Reader<'_, Numbered>,
    total: u64,
    cursor: u64,
    times: u64,
) -> u64
    requires drawing { IsDrawing total cursor reader.old }
    requires row { cursor < total }
    ensures drawing { IsDrawing total result reader.new }
    ensures more { result ≤ cursor + 1 }
{
    if let Ok(()) = draw_next(rt, reader, total, cursor) {
        pause(times);
        return cursor + 1;
    }
    thread::yield_now();
    cursor
}

// Takes rows until `stop` are taken, with a pause after each, then leaves. Returns how many were taken.
fn draw_rows(
    rt: &impl Abort,
    mut reader: Reader<'_, Numbered>,
    total: u64,
    stop: u64,
    times: u64,
    turns: u64,
) -> u64
    requires drawing { IsDrawing total 0 reader }
    requires within { stop ≤ total }
{
    let mut cursor = 0;
    for _turn in 0..turns {
        if cursor == stop {
            break;
        }
        cursor = draw_once(rt, &mut reader, total, cursor, times);
    }
    reader.leave();
    reader.cursor()
}

// Runs the writer and one reader, each in a thread.
fn feed_and_draw<R: Threads + Abort + Sync>(
    rt: &R,
    writer: Writer<'_, Numbered>,
    reader: Reader<'_, Numbered>,
    total: u64,
    turns: u64,
) -> (u64, u64)
    requires feeding { IsFeeding total 0 writer }
    requires drawing { IsDrawing total 0 reader }
{
    thread::join(
        rt,
        || feed_rows(writer, total, turns),
        || draw_rows(rt, reader, total, total, 0, turns),
    )
}

// Runs two more readers, each in a thread: a slow one, and one that leaves halfway.
fn draw_both<R: Threads + Abort + Sync>(
    rt: &R,
    slow: Reader<'_, Numbered>,
    leaving: Reader<'_, Numbered>,
    total: u64,
    turns: u64,
) -> (u64, u64)
    requires slow { IsDrawing total 0 slow }
    requires leaving { IsDrawing total 0 leaving }
{
    thread::join(
        rt,
        || draw_rows(rt, slow, total, total, 3, turns),
        || draw_rows(rt, leaving, total, total / 2, 1, turns),
    )
}

// The writer and three readers, each in a thread, with three places. One reader leaves halfway.
#[test]
fn rows_pass_to_readers_at_their_own_pace(rt: HostRuntime) {
    let deal = Numbered { total: 2000 };
    let mut ring = opened(&rt, &deal, 3, 3);
    let Ends {
        writer,
        mut readers,
    } = ring.ends(rt.alloc()).expect(&rt, "no ends");
    let third = readers.pop().expect(&rt, "no reader");
    let second = readers.pop().expect(&rt, "no reader");
    let first = readers.pop().expect(&rt, "no reader");
    pass_rows(&rt, writer, first, second, third, 2000, 1 << 32);
}

fn pass_rows<R: Threads + Abort + Sync>(
    rt: &R,
    writer: Writer<'_, Numbered>,
    first: Reader<'_, Numbered>,
    second: Reader<'_, Numbered>,
    third: Reader<'_, Numbered>,
    total: u64,
    turns: u64,
)
    requires feeding { IsFeeding total 0 writer }
    requires swift { IsDrawing total 0 first }
    requires slow { IsDrawing total 0 second }
    requires leaving { IsDrawing total 0 third }
{
    let ((head, swift), (slow, gone)) = thread::join(
        rt,
        ||
            requires feeding { IsFeeding total 0 writer }
            requires drawing { IsDrawing total 0 first }
        { feed_and_draw(rt, writer, first, total, turns) },
        ||
            requires slow { IsDrawing total 0 second }
            requires leaving { IsDrawing total 0 third }
        { draw_both(rt, second, third, total, turns) },
    );
    assert!(rt; head == total, "published {head}");
    assert!(rt; swift == total && slow == total, "taken {swift} and {slow}");
    assert!(rt; gone == total / 2, "taken {gone}");
}

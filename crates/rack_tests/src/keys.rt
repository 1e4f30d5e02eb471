// Ink keys: the keys of columns, the counts of a small edition, and the turns of a key reader at a ring with
// two places.
ghost use Rattle.std.specs.Prelude.{◌≡◌, ◌+◌, ◌<◌, ◌≤◌, false, true, IfOk, length, slice_get};
ghost use Rattle.plan_rows.specs.Rows.{places_in, rows_of};
ghost use Rattle.ink_keys.specs.Counts.{IsBounded, no_counts};
ghost use Rattle.ink_keys.specs.Turn.{IfWaiting};
ghost use Rattle.rack_tests.specs.Counting.{IsCounting, small_rows};
ghost use Rattle.rack_tests.specs.Numbered.{IsFeeding};

use crate::rows::{Numbered, frame, plan_of, plan_rows};
use crate::site::sent;
use crate::turn::{ends_of, publish};
use ink_keys::{Counts, KeyEnd, KeyReader, key_of};
use plan_json::Plan;
use plan_pages::plate_shape;
use plan_rows::RowPlan;
use pr_base::{Deal, Ink, NoMemory};
use ring_lanes::{Deck, Reader, Writer, open_ring};
use std::alloc::Global;
use std::process::Abort;

// ---- columns

/// Width, keys, column and its key: the column times the keys divided by the width, rounded down.
const COLUMNS: [(u32, u32, u32, u32); 11] = [
    (16, 4, 0, 0),
    // 60 / 16
    (16, 4, 15, 3),
    // 15 / 16, and 18 / 16
    (16, 3, 5, 0),
    (16, 3, 6, 1),
    // More keys than columns: 64 / 3, and 128 / 3.
    (3, 64, 0, 0),
    (3, 64, 1, 21),
    (3, 64, 2, 42),
    // The widest row: 65,472 / 65,535 and 65,536 / 65,535, and 4,194,176 / 65,535, 64 less than 64 * 65,535.
    (65535, 64, 0, 0),
    (65535, 64, 1023, 0),
    (65535, 64, 1024, 1),
    (65535, 64, 65534, 63),
];

#[test]
fn columns_have_their_keys(rt: HostRuntime) {
    for (width, keys, column, key) in &COLUMNS {
        assert_key(&rt, *width, *keys, *column, *key);
    }
}

fn assert_key(rt: &impl Abort, width: u32, keys: u32, column: u32, key: u32) {
    assert!(rt; width <= 65535);
    assert!(rt; keys >= 1);
    assert!(rt; keys <= 64);
    assert!(rt; column < width);
    assert!(rt;
        key_of(width, keys, column) == key,
        "column {column} of {width}"
    );
}

// ---- counts

/// The two rows of a small edition, which pack to 1, 171, 0 and 1, 19, 0.
#[derive(Drop)]
struct SmallRows;

impl Deal for SmallRows {
    ghost use Rattle.rack_tests.specs.Counting.{small_rows};

    ghost rows = { λ _. small_rows };

    ghost size = { λ _. 5 };

    fn total(&self) -> u64 {
        2
    }

    fn row_len(&self) -> usize {
        5
    }
}

/// Returns zero counts for rows of 16 pixels.
fn zeros(alloc: Global, rows: &RowPlan, keys: u32) -> Result<Counts, NoMemory>
    requires least { 1 ≤ keys }
    requires most { keys ≤ 64 }
    ensures zero { IfOk result (λ counts. counts ≡ no_counts (length rows.now.groups) 16 keys) }
    ensures bounded { IfOk result (λ counts. IsBounded counts 0) }
{
    Ok(Counts::new(alloc, rows, 16, keys)?)
}

/// Puts the next row of the small edition on the deck, and counts it at its place.
fn add_next(deck: &mut Deck<'_, SmallRows>, rows: &RowPlan, counts: &mut Counts, frame: &[u8])
    requires home { deck.old.out ≡ false }
    requires rows { deck.old.rows ≡ small_rows }
    requires next { slice_get small_rows deck.old.put ≡ Some frame.now }
    requires total { length (places_in rows.now) ≡ 2 }
    requires groups { counts.old.groups ≡ length rows.now.groups }
    requires width { counts.old.width ≡ 16 }
    requires bounded { IsBounded counts.old deck.old.put }
    ensures deck { deck.new ≡ record deck.old { put = deck.old.put + 1; there = true } }
    ensures same { counts.new ≡ record counts.old { numbers = counts.new.numbers } }
    ensures bounded { IsBounded counts.new (deck.old.put + 1) }
{
    deck.put(frame);
    let held = deck.take();
    let place = rows.row_at(held.number());
    counts.add(place, &held);
    deck.give(held);
}

/// Counts both rows of the small edition. `frame(n)` is the frame of the row n + 1 and 0.
fn count_small(alloc: Global, rows: &RowPlan, keys: u32) -> Result<Counts, NoMemory>
    requires least { 1 ≤ keys }
    requires most { keys ≤ 64 }
    requires total { length (places_in rows.now) ≡ 2 }
    ensures { IfOk result (λ counts. counts.groups ≡ length rows.now.groups) }
{
    let mut counts = zeros(alloc, rows, keys)?;
    let deal = SmallRows;
    let mut deck = Deck::open(alloc, &deal)?;
    add_next(&mut deck, rows, &mut counts, &frame(170));
    add_next(&mut deck, rows, &mut counts, &frame(18));
    Ok(counts)
}

fn counted(counts: &Counts, group: usize, wanted: &[u64]) -> bool
    requires { group < counts.now.groups }
{
    counts.of(group, Ink::K) == wanted
}

const SMALL: &[u8] = br#"{"plan": 1, "edition": "E1", "dpi": 1200, "page": [8, 2],
    "pages": [{"name": "p", "inks": "K", "layers": []}],
    "sections": [{"name": "A", "pages": ["p", "p"]}],
    "sites": [{"name": "OSLO"}]}"#;

// Checks the counts of the small edition's rows with this many keys.
fn check_small(rt: &impl Abort, alloc: Global, rows: &RowPlan, keys: u32, wanted: &[u64])
    requires least { 1 ≤ keys }
    requires most { keys ≤ 64 }
    requires total { length (places_in rows.now) ≡ 2 }
    requires group { 0 < length rows.now.groups }
{
    let counts = count_small(alloc, rows, keys).expect(rt, "memory");
    sent(&counts);
    assert!(rt; counted(&counts, 0, wanted), "{keys} keys");
}

// 171 and 19 are 10101011 and 00010011. With four keys each key has four columns: 2 and 1 dots in the first
// four, 3 and 2 in the next. With three keys the first has columns 0 to 5, the second 6 to 10: 3 and 1 dots
// in the first, 2 and 2 in the second.
#[test]
fn rows_are_counted(rt: HostRuntime) {
    let plan = plan_of(&rt, SMALL);
    let rows = plan_rows(&rt, &plan);
    check_counts(&rt, rt.alloc(), &plan, &rows);
}

fn check_counts(rt: &impl Abort, alloc: Global, plan: &Plan, rows: &RowPlan)
    requires { rows.now ≡ rows_of plan.now }
{
    assert!(rt; plate_shape(plan).width == 16);
    assert!(rt; rows.total() == 2);
    assert!(rt; rows.groups().len() == 1);
    check_small(rt, alloc, rows, 4, &[3, 5, 0, 0]);
    check_small(rt, alloc, rows, 3, &[4, 4, 0]);
}

// ---- turns

// Makes the next turn of a key reader whose last turn ended with `last`. After `Finished` no turn is made.
fn go(
    last: KeyEnd,
    key: &mut KeyReader<'_>,
    reader: &mut Reader<'_, Numbered>,
    patience: u32,
) -> KeyEnd
    requires ready { IfWaiting last (λ _. IsCounting reader.old key.old) }
    requires patience { 0 < patience }
    ensures ready { IfWaiting result (λ _. IsCounting reader.new key.new) }
    ensures groups { key.new.counts.groups ≡ key.old.counts.groups }
{
    match last {
        KeyEnd::Waiting { .. } => key.turn(reader, patience),
        KeyEnd::Finished => KeyEnd::Finished,
    }
}

// Makes three turns of a key reader: the first before any row is published, the others after two more rows
// each. Returns how each ended.
fn take_turns(
    rt: &impl Abort,
    writer: &mut Writer<'_, Numbered>,
    key: &mut KeyReader<'_>,
    reader: &mut Reader<'_, Numbered>,
) -> [KeyEnd; 3]
    requires feeding { IsFeeding 4 0 writer.old }
    requires counting { IsCounting reader.old key.old }
    ensures { key.new.counts.groups ≡ key.old.counts.groups }
{
    let first = go(KeyEnd::Waiting { head: 0 }, key, reader, 2);
    publish(rt, writer, 4, 0);
    publish(rt, writer, 4, 1);
    let second = go(first, key, reader, 1);
    publish(rt, writer, 4, 2);
    publish(rt, writer, 4, 3);
    let last = go(second, key, reader, 3);
    [first, second, last]
}

// Makes three turns of a key reader that counts all rows of a ring. Returns how each ended, and the counts
// for three keys.
fn count_all<R: Abort + AllocGlobal>(rt: &R, rows: &RowPlan) -> ([KeyEnd; 3], Counts)
    requires { length (places_in rows.now) ≡ 4 }
    ensures { result.1.groups ≡ length rows.now.groups }
{
    let deal = Numbered { count: 4 };
    let mut ring = open_ring(rt.alloc(), &deal, 2, 1).expect(rt, "no ring");
    let (mut writer, mut reader) = ends_of(rt, &mut ring);
    let counts = zeros(rt.alloc(), rows, 3).expect(rt, "memory");
    let mut key = KeyReader::new(rows, counts);
    sent(&key);
    let ends = take_turns(rt, &mut writer, &mut key, &mut reader);
    (ends, key.into_counts())
}

const TWO_PAIRS: &[u8] = br#"{"plan": 1, "edition": "E1", "dpi": 1200, "page": [8, 2],
    "pages": [{"name": "p", "inks": "K", "layers": []}],
    "sections": [{"name": "A", "pages": ["p", "p", "p", "p"]}],
    "sites": [{"name": "OSLO"}]}"#;

// Whether a turn ended waiting at this row.
fn waits(end: KeyEnd, row: u64) -> bool {
    end == KeyEnd::Waiting { head: row }
}

// The first bytes of the rows are 1 to 4, with dots at columns 7, 6, 6 and 7, and 5. Columns 0 to 5 belong to
// key 0, 6 to 10 to key 1. Each pair has two rows.
#[test]
fn a_turn_counts_rows_of_a_ring(rt: HostRuntime) {
    let plan = plan_of(&rt, TWO_PAIRS);
    let rows = plan_rows(&rt, &plan);
    check_turns(&rt, &plan, &rows);
}

fn check_turns<R: Abort + AllocGlobal>(rt: &R, plan: &Plan, rows: &RowPlan)
    requires { rows.now ≡ rows_of plan.now }
{
    assert!(rt; plate_shape(plan).width == 16);
    assert!(rt; rows.total() == 4);
    assert!(rt; rows.groups().len() == 2);
    let ([first, second, last], counts) = count_all(rt, rows);
    assert!(rt; waits(first, 0) && waits(second, 2) && last == KeyEnd::Finished);
    assert!(rt; counted(&counts, 0, &[0, 2, 0]) && counted(&counts, 1, &[1, 2, 0]));
}

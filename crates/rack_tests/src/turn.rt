// A site that takes its rows in turns from a ring with two places.
ghost use Rattle.std.specs.Prelude.{◌≡◌, ◌+◌, ◌<◌, length, true};
ghost use Rattle.pr_base.specs.Row.{row_size};
ghost use Rattle.plan_json.specs.Data.{plate_width};
ghost use Rattle.plan_rows.specs.Rows.{row_places, rows_of};
ghost use Rattle.ring_rule.specs.Views.{ring_of};
ghost use Rattle.site_agent.specs.Turn.{IfWaiting};
ghost use Rattle.rack_tests.specs.Numbered.{IsFeeding, IsNew, IsTurning, numbered};

use crate::rows::{Numbered, check_rack, frame, plan_of, plan_rows};
use crate::site::site_of;
use plan_json::Plan;
use plan_pages::plate_shape;
use plan_rows::RowPlan;
use pr_rack::MemRack;
use ring_lanes::{Ends, Reader, Ring, Source, Writer, open_ring};
use site_agent::{Site, TurnEnd};
use std::alloc::Global;
use std::process::Abort;

/// Publishes row `n`, for which there is room.
pub fn publish(rt: &impl Abort, writer: &mut Writer<'_, Numbered>, count: u8, n: u8)
    requires feeding { IsFeeding count n writer.old }
    requires row { n < count }
    requires few { count < 255 }
    ensures { IsFeeding count (n + 1) writer.new }
{
    let Ok(pass) = writer.room() else { rt.abort() };
    writer.publish(pass, &frame(n));
}

/// Returns the ends of a ring of four rows with two places and one reader.
pub fn ends_of<'r, R: Abort + AllocGlobal>(
    rt: &R,
    ring: &'r mut Ring<'_, Numbered>,
) -> (Writer<'r, Numbered>, Reader<'r, Numbered>)
    requires fresh { ring.old.fresh ≡ true }
    requires ring { ring.old.ring ≡ ring_of 2 1 (numbered 4) 5 }
    ensures writer { IsFeeding 4 0 result.0 }
    ensures reader { IsNew 4 result.1 }
{
    let Ends {
        writer,
        mut readers,
    } = ring.ends(rt.alloc()).expect(rt, "no ends");
    let reader = readers.pop().expect(rt, "no reader");
    (writer, reader)
}

// Makes the next turn of a site whose last turn ended with `last`. If that is not `Waiting`, no turn is made.
fn go(
    last: TurnEnd,
    site: &mut Site,
    reader: &mut Reader<'_, Numbered>,
    rack: &mut MemRack,
    patience: u32,
) -> TurnEnd
    requires ready { IfWaiting last (λ _. IsTurning reader.old rack.old site.old) }
    requires patience { 0 < patience }
    ensures ready { IfWaiting result (λ _. IsTurning reader.new rack.new site.new) }
{
    match last {
        TurnEnd::Waiting { .. } => site.turn(reader, rack, patience),
        ended => ended,
    }
}

// The head at which a site waits.
fn head_of(end: &TurnEnd) -> Option<u64> {
    match end {
        TurnEnd::Waiting { head } => Some(*head),
        _ => None,
    }
}

// Makes three turns of a site: the first before any row is published, the others after two more rows each.
// Returns where the first two waited, and how the last one ended.
fn take_turns(
    rt: &impl Abort,
    writer: &mut Writer<'_, Numbered>,
    site: &mut Site,
    reader: &mut Reader<'_, Numbered>,
    rack: &mut MemRack,
) -> ([Option<u64>; 2], TurnEnd)
    requires feeding { IsFeeding 4 0 writer.old }
    requires turning { IsTurning reader.old rack.old site.old }
{
    let first = site.turn(reader, rack, 1);
    let first_head = head_of(&first);
    publish(rt, writer, 4, 0);
    publish(rt, writer, 4, 1);
    let second = go(first, site, reader, rack, 2);
    let second_head = head_of(&second);
    publish(rt, writer, 4, 2);
    publish(rt, writer, 4, 3);
    let last = go(second, site, reader, rack, 1);
    ([first_head, second_head], last)
}

// Makes three turns of the site with this index over all rows of a ring. Returns where it waited, the last
// result, and its rack.
fn take_all<R: Abort + AllocGlobal>(
    rt: &R,
    plan: &Plan,
    rows: &RowPlan,
    index: usize,
) -> ([Option<u64>; 2], TurnEnd, MemRack)
    requires rows { rows.now ≡ rows_of plan.now }
    requires site { index < length plan.now.sites }
    requires sides { row_size (plate_width plan.now) ≡ 2 }
    requires total { length (row_places plan.now) ≡ 4 }
{
    let deal = Numbered { count: 4 };
    let mut ring = open_ring(rt.alloc(), &deal, 2, 1).expect(rt, "no ring");
    let (mut writer, mut reader) = ends_of(rt, &mut ring);
    let mut site = site_of(rt.alloc(), plan, rows, index).expect(rt, "memory");
    let mut rack = MemRack::new(rt.alloc(), Vec::new(rt.alloc()));
    let (heads, last) = take_turns(rt, &mut writer, &mut site, &mut reader, &mut rack);
    (heads, last, rack)
}

const TWO_PAIRS: &[u8] = br#"{"plan": 1, "edition": "E1", "dpi": 1200, "page": [8, 2],
    "pages": [{"name": "p", "inks": "K", "layers": []}],
    "sections": [{"name": "A", "pages": ["p", "p", "p", "p"]}],
    "sites": [{"name": "OSLO"}, {"name": "BERGEN"}]}"#;

const BERGEN: [(&str, u8, u8); 2] = [
    ("OUT/BERGEN/E1-A-001-K.tif", 0, 1),
    ("OUT/BERGEN/E1-A-002-K.tif", 2, 3),
];

const RING: Source = Source::Ring {
    reader: 0,
    readers: 1,
    places: 2,
};

#[test]
fn a_turn_waits_for_rows_and_finishes(rt: HostRuntime) {
    let plan = plan_of(&rt, TWO_PAIRS);
    let rows = plan_rows(&rt, &plan);
    check_turns(&rt, &plan, &rows);
}

fn check_turns<R: Abort + AllocGlobal>(rt: &R, plan: &Plan, rows: &RowPlan)
    requires { rows.now ≡ rows_of plan.now }
{
    assert!(rt; plan.sites.len() == 2);
    assert!(rt; plate_shape(plan).width == 16);
    assert!(rt; rows.total() == 4);
    let (heads, last, rack) = take_all(rt, plan, rows, 1);
    assert!(rt; heads == [Some(0), Some(2)]);
    assert!(rt; matches!(last, TurnEnd::Finished));
    check_rack(rt, &rack, RING, &BERGEN, 4);
}

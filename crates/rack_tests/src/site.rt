// A site that takes its rows from a deck.
ghost use Rattle.std.specs.Prelude.{◌≡◌, ◌+◌, ◌<◌, false, true, IfOk, length, map};
ghost use Rattle.pr_base.specs.Row.{row_size};
ghost use Rattle.tif_packbits.specs.Frame.{AreFrames, framed_row};
ghost use Rattle.plan_json.specs.Data.{plate_width};
ghost use Rattle.plan_rows.specs.Rows.{row_places, rows_of};
ghost use Rattle.site_agent.specs.Going.{IsGoing};
ghost use Rattle.site_agent.specs.Kept.{OnDone};
ghost use Rattle.rack_tests.specs.Numbered.{Takes, numbered, told_first};

use crate::rows::{Numbered, check_rack, frame, plan_of, plan_rows};
use plan_json::Plan;
use plan_pages::plate_shape;
use plan_rows::RowPlan;
use pr_base::NoMemory;
use pr_rack::MemRack;
use ring_lanes::{Deck, Source};
use site_agent::{Kept, Site};
use std::alloc::Global;
use std::process::Abort;

// Gives the row put last to a site whose last result is `last`. Returns the site's result. A site that has
// ended takes no more rows.
fn offer(deck: &mut Deck<'_, Numbered>, last: Kept, site: &mut Site, rack: &mut MemRack) -> Kept
    requires home { deck.old.out ≡ false }
    requires there { deck.old.there ≡ true }
    requires frames { AreFrames 2 (map framed_row deck.old.rows) deck.old.rows }
    requires takes { OnDone last (Takes deck.old.rows rack.old site.old) }
    requires next { OnDone last (site.old.next + 1 ≡ deck.old.put) }
    ensures deck { deck.new ≡ deck.old }
    ensures takes { OnDone result (Takes deck.old.rows rack.new site.new) }
    ensures next { OnDone result (site.new.next ≡ deck.old.put) }
{
    match last {
        Kept::Done => {
            let held = deck.take();
            let kept = site.keep(&held, rack);
            deck.give(held);
            kept
        }
        last => last,
    }
}

// Puts `count` rows on a deck, one after the other, and gives each to a site. Returns the site's last result.
fn carry(deck: &mut Deck<'_, Numbered>, count: u8, site: &mut Site, rack: &mut MemRack) -> Kept
    requires deck { deck.old ≡ record { rows = numbered count; put = 0; there = false; out = false } }
    requires takes { Takes (numbered count) rack.old site.old }
    requires next { site.old.next ≡ 0 }
{
    let mut last = Kept::Done;
    for n in 0..count {
        deck.put(&frame(n));
        last = offer(deck, last, site, rack);
    }
    last
}

/// Requires that sites and key readers can be sent to threads.
pub fn sent<T: Send>(_value: &T) {}

/// Returns the site with this index of a plan whose plates have rows of two bytes.
pub fn site_of(alloc: Global, plan: &Plan, rows: &RowPlan, index: usize) -> Result<Site, NoMemory>
    requires rows { rows.now ≡ rows_of plan.now }
    requires site { index < length plan.now.sites }
    requires sides { row_size (plate_width plan.now) ≡ 2 }
    ensures takes { IfOk result (λ site.
        IsGoing (map framed_row (numbered (length (row_places plan.now)))) Source.Deck told_first told_first
        site) }
    ensures next { IfOk result (λ site. site.next ≡ 0) }
{
    prove!(index < plan.sites.len());
    Site::new(alloc, plan, rows, "OUT", index)
}

// Gives all rows of a plan to its first site. Returns the site's last result, and its rack.
fn run<R: Abort + AllocGlobal>(rt: &R, plan: &Plan, rows: &RowPlan) -> (Kept, MemRack)
    requires rows { rows.now ≡ rows_of plan.now }
    requires site { 0 < length plan.now.sites }
    requires sides { row_size (plate_width plan.now) ≡ 2 }
    requires few { length (row_places plan.now) < 255 }
{
    let deal = Numbered {
        count: rows.total() as u8,
    };
    let mut deck = Deck::open(rt.alloc(), &deal).expect(rt, "no deck");
    let mut site = site_of(rt.alloc(), plan, rows, 0).expect(rt, "no site");
    sent(&site);
    let mut rack = MemRack::new(rt.alloc(), Vec::new(rt.alloc()));
    let last = carry(&mut deck, deal.count, &mut site, &mut rack);
    (last, rack)
}

const FIVE_INKS: &[u8] = br#"{"plan": 2, "edition": "E1", "dpi": 1200, "page": [8, 2],
    "pages": [{"name": "p", "inks": "CMYKS", "layers": []}],
    "sections": [{"name": "A", "pages": ["p", "p"]}],
    "sites": [{"name": "OSLO"}, {"name": "BERGEN"}]}"#;

const INKS: [(&str, u8, u8); 5] = [
    ("OUT/OSLO/E1-A-001-C.tif", 0, 5),
    ("OUT/OSLO/E1-A-001-M.tif", 1, 6),
    ("OUT/OSLO/E1-A-001-Y.tif", 2, 7),
    ("OUT/OSLO/E1-A-001-K.tif", 3, 8),
    ("OUT/OSLO/E1-A-001-S.tif", 4, 9),
];

// Each of the five plates has a row before the first of them is finished.
#[test]
fn five_plates_are_open_at_once(rt: HostRuntime) {
    let plan = plan_of(&rt, FIVE_INKS);
    let rows = plan_rows(&rt, &plan);
    check_inks(&rt, &plan, &rows);
}

fn check_inks<R: Abort + AllocGlobal>(rt: &R, plan: &Plan, rows: &RowPlan)
    requires { rows.now ≡ rows_of plan.now }
{
    assert!(rt; plan.sites.len() > 0);
    assert!(rt; plate_shape(plan).width == 16);
    assert!(rt; rows.total() == 10);
    let (last, rack) = run(rt, plan, rows);
    assert!(rt; matches!(last, Kept::Done));
    check_rack(rt, &rack, Source::Deck, &INKS, 10);
}

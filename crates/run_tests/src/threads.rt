// Tests that two sites of a run and its writer run side by side: their racks share how many row calls each
// has begun.
ghost use Rattle.std.specs.Prelude.{refl, ◌≡◌, Some, ◌≤◌, is_some, length, map};
ghost use Rattle.pr_rack.specs.Rack.{none_begun};
ghost use Rattle.cmd_base.specs.Seen.{AreIdle};

use crate::room::files_of;
use pr_rack::{MemRack, Rack, RackFault};
use ring_lanes::{Held, Source};
use std::alloc::Global;
use std::hint;
use std::process::Abort;
use std::sync::atomic::{AtomicU64, Ordering};
use std::thread::Threads;
use std::time::Clock;
use test_room::{CALM, Desk, Ended, RACKS, prints};

/// What a rack does in one of its row calls.
#[derive(Clone, Copy)]
enum Stop {
    /// Waits in the call for this row until the other rack has begun `calls` row calls, or for 2^26 turns of
    /// a loop.
    Meets { row: u64, calls: u64 },
    /// Waits in the call for row 0, for 2^20 turns of a loop.
    Pauses,
    /// Never waits.
    Goes,
}

/// What the racks of a run share: the number of row calls that each of two has begun, how often one waited in
/// vain or had a row that is too far ahead of the other's calls, and the places of the ring.
#[derive(Drop)]
struct Counts {
    first: AtomicU64,
    second: AtomicU64,
    alone: AtomicU64,
    places: u64,
}

/// A rack in memory that counts its row calls, and compares them with those of another rack.
#[derive(Drop)]
struct Watched<'c> {
    rack: MemRack,
    stop: Stop,
    own: &'c AtomicU64,
    other: &'c AtomicU64,
    counts: &'c Counts,
}

impl Watched<'_> {
    /// Waits until the other rack has begun `calls` row calls, or for `turns` turns of a loop. Returns
    /// whether it has begun them.
    fn wait(&self, calls: u64, turns: u64) -> bool {
        for _turn in 0..turns {
            if self.other.load(Ordering::SeqCst) >= calls {
                return true;
            }
            hint::spin_loop();
        }
        false
    }

    /// Waits in the call for row `n` if this rack waits there, and returns whether the other rack came as far
    /// as expected.
    fn meets(&self, n: u64) -> bool {
        match self.stop {
            Stop::Meets { row, calls } if n == row => self.wait(calls, 1 << 26),
            Stop::Pauses if n == 0 => {
                self.wait(u64::MAX, 1 << 20);
                true
            }
            _ => true,
        }
    }

    /// Begins the call for row `n`.
    fn begin_row(&self, n: u64) {
        self.own.fetch_add(1, Ordering::SeqCst);
        let met = self.meets(n);
        let near = n
            < self
                .other
                .load(Ordering::SeqCst)
                .saturating_add(self.counts.places);
        if !met || !near {
            self.counts.alone.fetch_add(1, Ordering::SeqCst);
        }
    }
}

impl Rack for Watched<'_> {
    ghost finished = { λ r. Some r.rack.files };

    ghost working = { λ r. Some r.rack.slots };

    ghost begun = { λ r. map is_some r.rack.slots };

    ghost taken = { λ r. Some r.rack.taken };

    ghost missed = { λ r. Some r.rack.misses.missed };

    ghost faults = { λ r. r.rack.misses.faults };

    ghost finished_told = { λ r h. Prim.cc };

    ghost missed_told = { λ r h. Prim.cc };

    ghost begun_told = { λ r. refl };

    fn begin(&mut self, slot: usize, path: &str, head: &[u8]) -> Result<(), RackFault> {
        self.rack.begin(slot, path, head)
    }

    fn row(&mut self, slot: usize, held: &Held) -> Result<(), RackFault> {
        self.begin_row(held.number());
        self.rack.row(slot, held)
    }

    fn finish(&mut self, slot: usize, tail: &[u8], at: u32) -> Result<(), RackFault> {
        self.rack.finish(slot, tail, at)
    }
}

/// Returns the idle rack of a site. The racks of the first two sites watch each other.
fn rack_of<'c>(alloc: Global, site: usize, stops: [Stop; 2], counts: &'c Counts) -> Watched<'c>
    ensures { map is_some result.rack.slots ≡ none_begun }
{
    let rack = MemRack::new(alloc, Vec::new(alloc));
    let [first, second] = stops;
    if site == 1 {
        return Watched {
            rack,
            stop: second,
            own: &counts.second,
            other: &counts.first,
            counts,
        };
    }
    Watched {
        rack,
        stop: first,
        own: &counts.first,
        other: &counts.second,
        counts,
    }
}

/// Returns sixteen racks, of which the first two watch each other.
fn watched_racks<'c, R: Abort + AllocGlobal>(
    rt: &R,
    stops: [Stop; 2],
    counts: &'c Counts,
) -> Vec<Watched<'c>>
    ensures count { length result.items ≡ 16 }
    ensures idle { AreIdle ⟦<Watched<'c> as Rack>⟧ result.items }
{
    let mut racks = Vec::new(rt.alloc());
    for site in 0..RACKS {
        let rack = rack_of(rt.alloc(), site, stops, counts);
        racks.push(rack).expect(rt, "memory");
    }
    racks
}

// A plan of two pairs of empty pages for two sites: 1,024 rows, which both sites keep.
const LONG: &str = r#"{"plan":1,"edition":"E1","dpi":1200,"page":[8,512],
"pages":[{"name":"w","inks":"K","layers":[]}],
"sections":[{"name":"A","pages":["w","w","w","w"]}],"sites":[{"name":"OSLO"},{"name":"BERGEN"}]}"#;

/// A command over a plan of `rows` rows with a ring of this many readers and places, and what it reports.
#[derive(Clone, Copy)]
struct Order<'a> {
    words: &'a [&'a str],
    plan: &'a str,
    rows: usize,
    report: &'a str,
    readers: u32,
    places: u32,
}

const REPORT: &str = "site OSLO finished plates 2 rows 1024
site BERGEN finished plates 2 rows 1024
total rows 1024 sites 2
";

const KEYS_REPORT: &str = "site OSLO finished plates 2 rows 1024
site BERGEN finished plates 2 rows 1024
total rows 1024 sites 2
keys 0 A-001-K 0
keys 1 A-002-K 0
";

const RUN_AT_64: Order<'static> = Order {
    words: &["run", "plan.json", "FILES", "OUT", "64", "65536"],
    plan: LONG,
    rows: 1024,
    report: REPORT,
    readers: 2,
    places: 64,
};

const RUN_AT_2: Order<'static> = Order {
    words: &["run", "plan.json", "FILES", "OUT", "2", "65536"],
    places: 2,
    ..RUN_AT_64
};

const KEYS_AT_64: Order<'static> = Order {
    words: &["keys", "plan.json", "FILES", "OUT", "1", "64", "65536"],
    report: KEYS_REPORT,
    readers: 3,
    ..RUN_AT_64
};

const KEYS_AT_2: Order<'static> = Order {
    words: &["keys", "plan.json", "FILES", "OUT", "1", "2", "65536"],
    places: 2,
    ..KEYS_AT_64
};

/// Returns whether the racks of both sites took all rows, in order, from one ring.
fn took_all(racks: &[Watched<'_>], order: Order<'_>) -> bool {
    for (site, rack) in racks.iter().enumerate().take(2) {
        let source = Source::Ring {
            reader: site as u32,
            readers: order.readers,
            places: order.places,
        };
        let taken = rack.rack.taken();
        if taken.len() != order.rows || !taken.iter().all(|row| row.1 == source) {
            return false;
        }
    }
    true
}

/// Returns whether the command over these racks is done and prints its report.
fn reports<'c, R: Abort + AllocGlobal + Threads + Clock + Sync>(
    rt: &R,
    order: Order<'_>,
    racks: &mut [Watched<'c>],
) -> bool
    requires racks { 16 ≤ length racks.old }
    requires idle { AreIdle ⟦<Watched<'c> as Rack>⟧ racks.old }
{
    let files = files_of(order.plan, &[], &[]);
    let mut desk = Desk::new(rt.alloc(), &files, &[], &[], None);
    let ended = Ended {
        status: 0,
        out: order.report.as_bytes(),
        line: "",
    };
    let printed = prints(rt, rt.alloc(), order.words, &mut desk, racks, CALM, &ended);
    printed.expect(rt, "memory")
}

/// Runs the command over racks that wait for each other in this way.
fn run_watched<R: Abort + AllocGlobal + Threads + Clock + Sync>(
    rt: &R,
    order: Order<'_>,
    stops: [Stop; 2],
    counts: &Counts,
) -> bool {
    let mut racks = watched_racks(rt, stops, counts);
    reports(rt, order, racks.as_mut_slice()) && took_all(racks.as_slice(), order)
}

/// Runs the command, and returns how often a rack was alone.
fn times_alone<R: Abort + AllocGlobal + Threads + Clock + Sync>(
    rt: &R,
    order: Order<'_>,
    stops: [Stop; 2],
) -> u64 {
    let counts = Counts {
        first: AtomicU64::new(0),
        second: AtomicU64::new(0),
        alone: AtomicU64::new(0),
        places: u64::from(order.places),
    };
    assert!(rt; run_watched(rt, order, stops, &counts));
    counts.alone.load(Ordering::SeqCst)
}

/// Asserts that in one of four runs no rack is alone.
fn assert_meet<R: Abort + AllocGlobal + Threads + Clock + Sync>(
    rt: &R,
    order: Order<'_>,
    stops: [Stop; 2],
) {
    for _run in 0..4 {
        if times_alone(rt, order, stops) == 0 {
            return;
        }
    }
    panic!(rt; "each run went on alone");
}

// Each rack waits in its first row call until the other begins one, which never happens on one thread.
#[test]
fn sites_run_side_by_side(rt: HostRuntime) {
    let stop = Stop::Meets { row: 0, calls: 1 };
    assert_meet(&rt, RUN_AT_64, [stop, stop]);
}

#[test]
fn sites_run_side_by_side_of_key_counts(rt: HostRuntime) {
    let stop = Stop::Meets { row: 0, calls: 1 };
    assert_meet(&rt, KEYS_AT_64, [stop, stop]);
}

// With two places no rack receives a row that is two ahead of the other's calls, although that one pauses.
#[test]
fn sites_share_one_ring(rt: HostRuntime) {
    assert!(rt; times_alone(&rt, RUN_AT_2, [Stop::Goes, Stop::Pauses]) == 0);
}

#[test]
fn sites_and_key_counts_share_one_ring(rt: HostRuntime) {
    assert!(rt; times_alone(&rt, KEYS_AT_2, [Stop::Goes, Stop::Pauses]) == 0);
}

// The first rack waits in the call for row 10 until the other has begun the call for row 70. A writer whose
// turn ends before the sites' turns begin can't publish that row: rows 64 to 70 take the places of rows 0 to
// 6, none of which was taken before.
#[test]
fn writer_runs_beside_the_sites(rt: HostRuntime) {
    let stop = Stop::Meets { row: 10, calls: 71 };
    assert_meet(&rt, RUN_AT_64, [stop, Stop::Goes]);
}

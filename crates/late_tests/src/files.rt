// The expected contents of racks.

use pr_rack::MemRack;
use ring_lanes::Source;
use std::process::Abort;
use test_room::{Plate, has_plates, took_rows};

/// The expected contents of a rack: its plates, and the numbers of the rows that it took, each from a deck.
pub type Kept<'a> = (&'a [Plate<'a>], &'a [u64]);

/// No plates, and no rows.
const NOTHING: Kept<'static> = (&[], &[]);

// Whether a rack has these plates and took these rows.
fn has<R: Abort + AllocGlobal>(rt: &R, rack: &MemRack, kept: Kept<'_>) -> bool {
    let (plates, rows) = kept;
    has_plates(rt.alloc(), rack, plates).expect(rt, "memory") && took_rows(rack, Source::Deck, rows)
}

/// Whether racks, from the first on, have these plates and took these rows, and all other racks have nothing.
pub fn have<R: Abort + AllocGlobal>(rt: &R, racks: &[MemRack], kept: &[Kept<'_>]) -> bool {
    for (site, rack) in racks.iter().enumerate() {
        let kept = match kept.get(site) {
            Some(kept) => *kept,
            None => NOTHING,
        };
        if !has(rt, rack, kept) {
            return false;
        }
    }
    true
}

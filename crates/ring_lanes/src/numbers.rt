// The numbers of a ring, which each of its ends keeps, and whether its ends pause.
use crate::waiting::pause;
use pr_base::Deal;
use ring_rule::RingTable;

/// A ring's numbers of places, readers and rows, the bytes of each row, and whether an end pauses between two
/// loads.
#[derive(Clone, Copy)]
pub struct Numbers {
    pub places: u32,
    pub readers: u32,
    pub total: u64,
    pub row_len: usize,
    pub pauses: bool,
}

impl Numbers {
    ghost use Rattle.ring_lanes.specs.Numbers.{HasNumbers};

    /// Returns the numbers of this table's ring.
    pub fn of<D: Deal>(table: &RingTable<'_, D>, pauses: bool) -> Numbers
        ensures { HasNumbers table.now.ring result }
    {
        Numbers {
            places: table.places(),
            readers: table.readers(),
            total: table.total(),
            row_len: table.row_len(),
            pauses,
        }
    }

    /// Pauses between two loads, if the ring's ends pause. `look` is any number not known at compile time.
    #[inline]
    pub(crate) fn pause(&self, look: u32) {
        if self.pauses {
            pause(look);
        }
    }
}

// The writer takes the lane of one reader. The step is a load of word 0, which does not identify the reader,
// so the play's type carries that number in a ghost member: the caller chooses it.
ghost use Rattle.std.specs.Prelude.{◌≡◌, ℕ, ◌<◌};
ghost use Rattle.ring_rule.specs.Plays.{PicksAt, IsPick, MayFill, writer_in};
ghost use Rattle.ring_rule.specs.Key.{key_ring};
ghost use Rattle.ring_rule.specs.Seats.{IsWriterSeat};

use crate::{Lane, RingSeat, RingShared, View};
use atomic_table::Play;
use pr_base::Deal;
use std::marker::{Brand, PhantomData};

/// A reader's number, visible to clauses only.
pub trait Chosen {
    ghost reader: { ℕ };
}

impl Chosen for Brand {
    ghost reader = { 0 };
}

/// The writer takes the lane of that reader for the row numbered head.
pub struct Picks<J>(PhantomData<J>);

impl<J: Chosen> Play<Option<Lane>, View> for Picks<J> {
    ghost then = { PicksAt J.reader };
}

/// Takes the lane of a reader for the row numbered head.
pub fn pick<J: Chosen, D: Deal>(
    shared: &RingShared<D>,
    seat: &mut RingSeat,
    reader: u32,
    places: u32,
    head: u64,
    total: u64,
)
    requires chosen { reader ≡ J.reader }
    requires seat { let g = key_ring D.rows D.size shared.now.key in
        IsWriterSeat g shared.now.table_id seat.old.table_id seat.old.me places head total }
    requires may { MayFill (writer_in seat.old.me.0) reader }
    ensures table { seat.new.table_id ≡ seat.old.table_id }
    ensures picked { IsPick reader seat.old.me seat.new.me }
{
    shared.load::<Picks<J>>(seat, 0);
}

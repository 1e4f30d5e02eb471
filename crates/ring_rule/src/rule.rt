// The rule of the ring's table.
ghost use Rattle.ring_rule.specs.declared.view.View.TheVariants.{Writer};
ghost use Rattle.ring_rule.specs.Views.{ring_of, new_writer};
ghost use Rattle.ring_rule.specs.Kept.{Kept};

use crate::{Lane, View};
use atomic_table::{Seat, Shared, TableRule};
use pr_base::Deal;
use std::marker::PhantomData;
use std::snapshot::Snapshot;

/// What the rule may read of a ring: its numbers, and the deal whose rows pass through it, which is visible
/// to clauses only.
#[derive(Drop)]
pub struct RingKey<D> {
    pub places: u64,
    pub readers: u64,
    pub deal: Snapshot<D>,
}

/// The words, the lanes and the views of all seats show a sound schedule, each lane in its slot holds the
/// bytes of its row, and what notes say is true.
pub struct RingRule<D>(PhantomData<D>);

impl<D: Deal> TableRule<Option<Lane>, View, RingKey<D>> for RingRule<D> {
    ghost holds = { λ key.
        Kept (ring_of key.places key.readers (D.rows key.deal.value) (D.size key.deal.value)) };

    ghost first = { λ key.
        let g = ring_of key.places key.readers (D.rows key.deal.value) (D.size key.deal.value) in
        Writer (new_writer g) };
}

/// The ring's table as threads share it.
pub type RingShared<D> = Shared<Option<Lane>, View, RingKey<D>, RingRule<D>>;

/// A seat at the ring's table: the writer's, a reader's or a note's.
pub type RingSeat = Seat<Option<Lane>, View>;

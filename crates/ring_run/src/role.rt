// What a reader of a run does with its rows, and its turn at its end of the ring.
ghost use Rattle.std.specs.Prelude.{◌≡◌, ◌<◌, None, Some};
ghost use Rattle.pr_rack.specs.Told.{told};
ghost use Rattle.ring_run.specs.Seat.{counts_in, is_stopped as is_stopped_lem};
ghost use Rattle.ring_run.specs.Served.{SomeSeated, Turned};

use ink_keys::{Counts, KeyReader};
use pr_base::Deal;
use pr_rack::Rack;
use ring_lanes::Reader;
use site_agent::{LeftCause, Site, TurnEnd};

/// The role of a reader in a run: a site that continues, that has left, or that ran out of memory; or a key
/// reader.
#[derive(Drop)]
pub(crate) enum Role<'p> {
    Going(Site),
    Left(LeftCause),
    Stopped,
    Counting(KeyReader<'p>),
}

impl Role<'_> {
    /// Takes rows at the reader's end and keeps them, if a site continues and rows are still to come.
    pub(crate) fn turn<D: Deal, R: Rack>(
        &mut self,
        reader: &mut Reader<'_, D>,
        rack: &mut R,
        patience: u32,
    )
        requires some { SomeSeated
            (Some (told R.Rack rack.old))
            (record { reader = reader.old; role = self.old }) }
        requires patience { 0 < patience }
        ensures turned { Turned
            (Some (told R.Rack rack.old))
            (Some (told R.Rack rack.new))
            (record { reader = reader.old; role = self.old })
            (record { reader = reader.new; role = self.new }) }
    {
        let Role::Going(site) = self else {
            return;
        };
        if reader.cursor() == reader.total() {
            return;
        }
        match site.turn(reader, rack, patience) {
            TurnEnd::Waiting { head: _ } => {}
            TurnEnd::Finished => {}
            TurnEnd::Left(cause) => *self = Role::Left(cause),
            TurnEnd::Memory => *self = Role::Stopped,
        }
    }

    /// Counts rows at the reader's end, if this is a key reader and rows are still to come.
    pub(crate) fn turn_alone<D: Deal>(&mut self, reader: &mut Reader<'_, D>, patience: u32)
        requires some { SomeSeated None (record { reader = reader.old; role = self.old }) }
        requires patience { 0 < patience }
        ensures turned { Turned None None
            (record { reader = reader.old; role = self.old })
            (record { reader = reader.new; role = self.new }) }
    {
        let Role::Counting(key) = self else {
            return;
        };
        if reader.cursor() < reader.total() {
            let _end = key.turn(reader, patience);
        }
    }

    /// Returns whether it is a site that ran out of memory.
    pub(crate) fn is_stopped(&self) -> bool
        ensures { result ≡ is_stopped_lem self.now }
    {
        matches!(self, Role::Stopped)
    }

    /// Returns the counts of a key reader.
    pub(crate) fn into_counts(self) -> Option<Counts>
        ensures { result ≡ counts_in self.entry }
    {
        match self {
            Role::Counting(key) => Some(key.into_counts()),
            Role::Going(_site) => None,
            Role::Left(_cause) => None,
            Role::Stopped => None,
        }
    }
}

// The deck: a single place through which one thread hands each row of a deal to one site after another.
ghost use Rattle.std.specs.Prelude.{◌≡◌, ◌+◌, ◌<◌, true, false, Some, IfOk, length, slice_get};

use crate::{Held, Source};
use pr_base::{Deal, NoMemory};
use std::alloc::Global;
use std::marker::Model;

/// The rows of a deal, through a single place. Each row is put once, in order, and then taken and given back
/// once per site, or it is passed over. Contracts see the rows of the deal, how many of them were put or
/// passed, whether the last of these was put, and whether it is out.
#[derive(Drop)]
pub struct Deck<'d, D: Deal> {
    deal: &'d D,
    put: u64,
    /// Whether the last of these rows was put, and not passed.
    there: bool,
    place: Option<Vec<u8>>,
}

impl<'d, D: Deal> Model for Deck<'d, D> {
    ghost use Rattle.std.specs.Option.{is_none};
    ghost use Rattle.ring_lanes.specs.Deck.{DeckState, Keeps};

    ghost Value = { DeckState };

    ghost view = { λ d. record {
      rows = D.rows d.deal.now;
      put = d.put;
      there = d.there;
      out = is_none d.place;
    } };

    ghost invariant = { λ d. Keeps (D.rows d.deal.now) (D.size d.deal.now) d.put d.there d.place };
}

impl<'d, D: Deal> Deck<'d, D> {
    /// Opens a deck of the rows of `deal`, with none put yet.
    pub fn open(alloc: Global, deal: &'d D) -> Result<Deck<'d, D>, NoMemory>
        ensures { IfOk result (λ deck. deck
            ≡ record { rows = D.rows deal.now; put = 0; there = false; out = false }) }
    {
        // Called for its contract: the number of rows fits 64 bits.
        let _total = deal.total();
        let place = vec![in alloc; 0; deal.row_len()].map_err(|_| NoMemory)?;
        Ok(Deck {
            deal,
            put: 0,
            there: false,
            place: Some(place),
        })
    }

    /// Puts the next row of the deal in place of the previous one.
    pub fn put(&mut self, row: &[u8])
        requires home { self.old.out ≡ false }
        requires next { slice_get self.old.rows self.old.put ≡ Some row.now }
        ensures { self.new ≡ record self.old { put = self.old.put + 1; there = true } }
    {
        let Some(place) = &mut self.place else {
            unreachable!()
        };
        place.as_mut_slice().copy_from_slice(row);
        self.put += 1;
        self.there = true;
    }

    /// Passes over the next row of the deal. No row can be taken until the next one is put.
    pub fn pass(&mut self)
        requires home { self.old.out ≡ false }
        requires next { self.old.put < length self.old.rows }
        ensures { self.new ≡ record self.old { put = self.old.put + 1; there = false } }
    {
        self.there = false;
        self.put += 1;
    }

    /// Takes the row put last.
    pub fn take(&mut self) -> Held
        requires there { self.old.there ≡ true }
        requires home { self.old.out ≡ false }
        ensures number { result.number + 1 ≡ self.old.put }
        ensures bytes { slice_get self.old.rows result.number ≡ Some result.bytes }
        ensures source { result.source ≡ Source.Deck }
        ensures after { self.new ≡ record self.old { out = true } }
    {
        let bytes = self.place.take().unwrap();
        Held::of(bytes, self.put - 1, Source::Deck)
    }

    /// Takes back the row that is out.
    pub fn give(&mut self, held: Held)
        requires out { self.old.out ≡ true }
        requires number { held.number + 1 ≡ self.old.put }
        requires bytes { slice_get self.old.rows held.number ≡ Some held.bytes }
        requires source { held.source ≡ Source.Deck }
        ensures { self.new ≡ record self.old { out = false } }
    {
        self.place = Some(held.into_bytes());
    }
}

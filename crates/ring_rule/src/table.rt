// A ring's table: its words and lanes, and the seats, which are given out once.
ghost use Rattle.std.specs.Prelude.{◌≡◌, ◌+◌, ◌*◌, ◌<◌, ◌≤◌, ◌^◌, ◌-◌, true, [], length, map, IfOk, is_some};
ghost use Rattle.std.specs.List.{All};
ghost use Rattle.std.specs.Option.{ForSome};
ghost use Rattle.ring_rule.specs.Views.{ring_of, up_to};
ghost use Rattle.ring_rule.specs.Key.{key_ring};
ghost use Rattle.ring_rule.specs.Seats.{IsFreshSeat, IsRingTable};
ghost use Rattle.ring_rule.specs.Empty.{IsEmptyLane};
ghost use Rattle.ring_rule.specs.Marks.{TableMark, new_writer_mark, new_reader_mark};

use crate::seats::{cut_seats, empty_lanes};
use crate::{Lane, ReaderSeat, RingKey, RingRule, RingSeat, View, WriterSeat};
use atomic_table::Table;
use pr_base::{Deal, NoMemory};
use std::alloc::Global;
use std::marker::Model;
use std::snapshot::Snapshot;

/// The shared words and lanes of a ring, with the seat that all others are split from.
///
/// Contracts see its table, the ring's numbers, and whether it still has the seats.
#[derive(Drop)]
pub struct RingTable<'d, D: Deal> {
    table: Table<Option<Lane>, View, RingKey<D>, RingRule<D>, Global>,
    seat: Option<RingSeat>,
    deal: &'d D,
    places: u32,
    readers: u32,
}

impl<'d, D: Deal> Model for RingTable<'d, D> {
    ghost Value = { TableMark };

    ghost view = { λ t. record {
      table = t.table.shared.table_id;
      ring = key_ring D.rows D.size t.table.shared.key;
      fresh = is_some t.seat;
    } };

    ghost invariant = { λ t.
        let g = key_ring D.rows D.size t.table.shared.key in
        IsRingTable g t.table.shared.table_id t.places t.readers × (g.total ≡ length (D.rows t.deal.now))
        × (g.row_len ≡ D.size t.deal.now)
        × ForSome t.seat (λ s. IsFreshSeat g t.table.shared.table_id s.table_id s.me) };
}

/// The seats of a ring. The seat of reader r is at index r.
#[derive(Drop)]
pub struct Seats<'t, D: Deal> {
    pub writer: WriterSeat<'t, D>,
    pub readers: Vec<ReaderSeat<'t, D>>,
}

impl<'d, D: Deal> RingTable<'d, D> {
    /// Makes a ring for the rows of a deal, before the first step, with all the buffers that it will need.
    pub fn new(
        alloc: Global,
        deal: &'d D,
        places: u32,
        readers: u32,
    ) -> Result<RingTable<'d, D>, NoMemory>
        requires some_place { 1 ≤ places }
        requires few_places { places ≤ 1024 }
        requires some_reader { 1 ≤ readers }
        requires few_readers { readers ≤ 17 }
        requires total { length (D.rows deal.now) ≤ 2 ^ 64 - 2 }
        requires some_byte { 1 ≤ D.size deal.now }
        requires few_bytes { D.size deal.now ≤ 8258 }
        ensures ring { IfOk result (λ table.
            table.ring ≡ ring_of places readers (D.rows deal.now) (D.size deal.now)) }
        ensures fresh { IfOk result (λ table. table.fresh ≡ true) }
    {
        let key = RingKey {
            places: u64::from(places),
            readers: u64::from(readers),
            deal: Snapshot::of(deal),
        };
        let words = vec![in alloc; 0; readers as usize + 1]?;
        let lanes = empty_lanes(alloc, readers as usize * places as usize, deal.row_len())?;
        let Ok((table, seat)) = Table::new(alloc, words.as_slice(), lanes, &key) else {
            return Err(NoMemory);
        };
        Ok(RingTable {
            table,
            seat: Some(seat),
            deal,
            places,
            readers,
        })
    }

    /// Returns the number of places of each reader.
    pub fn places(&self) -> u32
        ensures places { result ≡ self.now.ring.places }
        ensures some { 1 ≤ result }
    {
        self.places
    }

    /// Returns the number of readers.
    pub fn readers(&self) -> u32
        ensures readers { result ≡ self.now.ring.readers }
        ensures few { result ≤ 17 }
    {
        self.readers
    }

    /// Returns the number of rows of the deal.
    pub fn total(&self) -> u64
        ensures total { result ≡ self.now.ring.total }
        ensures rows { length self.now.ring.rows ≡ result }
        ensures within { result ≤ 2 ^ 64 - 2 }
    {
        self.deal.total()
    }

    /// Returns the number of bytes of each row.
    pub fn row_len(&self) -> usize
        ensures row_len { result ≡ self.now.ring.row_len }
        ensures some { 1 ≤ result }
        ensures few { result ≤ 8258 }
    {
        self.deal.row_len()
    }

    /// Gives out all the seats of this table. This is the first call on the table. If allocation fails, the
    /// table still has the seats, which no clause states.
    pub fn seats(&mut self, alloc: Global) -> Result<Seats<'_, D>, NoMemory>
        requires { self.old.fresh ≡ true }
        ensures writer { IfOk result (λ seats. seats.writer ≡ new_writer_mark self.old.table self.old.ring) }
        ensures readers { IfOk result (λ seats.
            let g = self.old.ring in
            seats.readers.items ≡ map (new_reader_mark self.old.table g) (up_to g.readers)) }
    {
        let list = Vec::with_capacity(alloc, self.readers as usize)?;
        let readers = self.readers;
        let places = self.places;
        let total = self.deal.total();
        let Some(seat) = self.seat.take() else {
            unreachable!()
        };
        Ok(cut_seats(list, &self.table.shared, seat, places, readers, total))
    }
}

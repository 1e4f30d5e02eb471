// The ring: its words and lanes, and its two kinds of ends, which are given out once.
ghost use Rattle.std.specs.Prelude.{◌≡◌, ◌^◌, ◌-◌, ◌≤◌, true, length, map, IfOk};
ghost use Rattle.ring_rule.specs.Views.{ring_of, up_to};
ghost use Rattle.ring_rule.specs.Marks.{TableMark};
ghost use Rattle.ring_lanes.specs.Writer.{new_writer_state};
ghost use Rattle.ring_lanes.specs.Reader.{new_reader_state};

use crate::ends::reader_ends;
use crate::numbers::Numbers;
use crate::{Reader, Writer};
use pr_base::{Deal, NoMemory};
use ring_rule::{RingTable, Seats};
use std::alloc::Global;
use std::marker::Model;

/// A ring of lanes through which one writer passes the rows of a deal to several readers.
///
/// Contracts see its table, its numbers and rows, and whether it still has its ends.
#[derive(Drop)]
pub struct Ring<'d, D: Deal> {
    table: RingTable<'d, D>,
    pauses: bool,
}

impl<'d, D: Deal> Model for Ring<'d, D> {
    ghost Value = { TableMark };

    ghost view = { λ ring. ring.table };
}

/// The ends of a ring. Reader r is at index r.
#[derive(Drop)]
pub struct Ends<'r, D: Deal> {
    pub writer: Writer<'r, D>,
    pub readers: Vec<Reader<'r, D>>,
}

/// Opens a ring for the rows of a deal, with all the buffers that it will need.
pub fn open_ring<'d, D: Deal>(
    alloc: Global,
    deal: &'d D,
    places: u32,
    readers: u32,
) -> Result<Ring<'d, D>, NoMemory>
    requires some_place { 1 ≤ places }
    requires few_places { places ≤ 1024 }
    requires some_reader { 1 ≤ readers }
    requires few_readers { readers ≤ 17 }
    requires total { length (D.rows deal.now) ≤ 2 ^ 64 - 2 }
    requires some_byte { 1 ≤ D.size deal.now }
    requires few_bytes { D.size deal.now ≤ 8258 }
    ensures ring { IfOk result (λ opened.
        opened.ring ≡ ring_of places readers (D.rows deal.now) (D.size deal.now)) }
    ensures fresh { IfOk result (λ opened. opened.fresh ≡ true) }
{
    let table = RingTable::new(alloc, deal, places, readers)?;
    Ok(Ring {
        table,
        pauses: true,
    })
}

impl<'d, D: Deal> Ring<'d, D> {
    /// Sets whether the ends that it gives out pause after a load that found nothing new. By default they
    /// pause. Where all threads share one processor, pausing does not help.
    pub fn set_pauses(&mut self, pauses: bool)
        ensures { self.new ≡ self.old }
    {
        self.pauses = pauses;
    }

    /// Gives out all the ends of this ring, with every reader joined. This succeeds once; if allocation
    /// fails, the ring still has the ends, which no clause states.
    pub fn ends(&mut self, alloc: Global) -> Result<Ends<'_, D>, NoMemory>
        requires { self.old.fresh ≡ true }
        ensures writer { IfOk result (λ ends. ends.writer ≡ new_writer_state self.old.table self.old.ring) }
        ensures readers { IfOk result (λ ends.
            let ring = self.old.ring in
            ends.readers.items ≡ map (new_reader_state self.old.table ring) (up_to ring.readers)) }
    {
        let numbers = Numbers::of(&self.table, self.pauses);
        let known = vec![in alloc; 0; numbers.readers as usize]?;
        let list = Vec::with_capacity(alloc, numbers.readers as usize)?;
        let Seats { writer, readers } = self.table.seats(alloc)?;
        Ok(Ends {
            writer: Writer::new(writer, numbers, known),
            readers: reader_ends(list, readers, numbers),
        })
    }
}

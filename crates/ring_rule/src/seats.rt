// What a ring's table is made from and gives out: empty lanes, and a seat for each reader, split from the
// writer's.
ghost use Rattle.std.specs.Prelude.{◌≡◌, ◌+◌, ◌<◌, ◌≤◌, [], length, map, IfOk, vec_len, vec_capacity};
ghost use Rattle.std.specs.List.{All};
ghost use Rattle.ring_rule.specs.Views.{up_to};
ghost use Rattle.ring_rule.specs.Key.{key_ring};
ghost use Rattle.ring_rule.specs.Seats.{IsFreshSeat, IsRingTable};
ghost use Rattle.ring_rule.specs.Empty.{IsEmptyLane};
ghost use Rattle.ring_rule.specs.Marks.{new_writer_mark, new_reader_mark};

use crate::splits::Seating;
use crate::{Lane, ReaderSeat, RingSeat, RingShared, Seats, WriterSeat};
use pr_base::{Deal, NoMemory};
use std::alloc::Global;

/// Makes `count` buffers of `row_len` zero bytes, without row numbers.
pub fn empty_lanes(
    alloc: Global,
    count: usize,
    row_len: usize,
) -> Result<Vec<Option<Lane>>, NoMemory>
    ensures count { IfOk result (λ lanes. length lanes.items ≡ count) }
    ensures empty { IfOk result (λ lanes. All (IsEmptyLane row_len) lanes.items) }
{
    let mut lanes = Vec::new(alloc);
    for _lane in 0..count {
        let bytes = vec![in alloc; 0; row_len]?;
        lanes.push(Some(Lane {
            number: None,
            bytes,
        }))?;
    }
    Ok(lanes)
}

/// Splits a seat for each reader from the writer's, and pushes them into a list with enough capacity.
pub fn cut_seats<'t, D: Deal>(
    mut list: Vec<ReaderSeat<'t, D>>,
    shared: &'t RingShared<D>,
    mut seat: RingSeat,
    places: u32,
    readers: u32,
    total: u64,
) -> Seats<'t, D>
    requires empty { list.items ≡ [] }
    requires room { readers ≤ vec_capacity list }
    requires table { IsRingTable (key_ring D.rows D.size shared.now.key) shared.now.table_id places readers }
    requires total { (key_ring D.rows D.size shared.now.key).total ≡ total }
    requires fresh { let g = key_ring D.rows D.size shared.now.key in
        IsFreshSeat g shared.now.table_id seat.table_id seat.me }
    ensures writer { result.writer ≡ new_writer_mark seat.table_id (key_ring D.rows D.size shared.now.key) }
    ensures readers { let g = key_ring D.rows D.size shared.now.key in
        result.readers.items ≡ map (new_reader_mark seat.table_id g) (up_to readers) }
{
    for number in 0..readers {
        let cut = shared.split_seat::<Seating>(&mut seat);
        let Ok(()) = list.push(ReaderSeat::new(shared, cut, number, places)) else {
            unreachable!()
        };
    }
    Seats {
        writer: WriterSeat::new(shared, seat, places, total),
        readers: list,
    }
}

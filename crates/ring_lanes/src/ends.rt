// The readers' ends of a ring, made from its readers' seats.
ghost use Rattle.std.specs.Prelude.{◌≡◌, ◌≤◌, [], length, map, vec_capacity};
ghost use Rattle.ring_lanes.specs.Reader.{AreNewSeats, reader_state};

use crate::Reader;
use crate::numbers::Numbers;
use pr_base::Deal;
use ring_rule::ReaderSeat;

/// Makes an end from each reader's seat, and pushes them into a list with enough capacity.
pub fn reader_ends<'r, D: Deal>(
    mut list: Vec<Reader<'r, D>>,
    seats: Vec<ReaderSeat<'r, D>>,
    numbers: Numbers,
) -> Vec<Reader<'r, D>>
    requires empty { list.items ≡ [] }
    requires room { length seats.items ≤ vec_capacity list }
    requires count { length seats.items ≤ numbers.readers }
    requires seats { AreNewSeats numbers seats.items }
    ensures { result.items ≡ map reader_state seats.entry.items }
{
    let mut number = 0;
    for seat in seats {
        let Ok(()) = list.push(Reader::new(seat, numbers, number)) else {
            unreachable!()
        };
        number += 1;
    }
    list
}

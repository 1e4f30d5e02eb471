// Copying a row into the lanes of a ring's readers.
ghost use Rattle.std.specs.Prelude.{◌≡◌, length};
ghost use Rattle.ring_rule.specs.Kept.{row_at};
ghost use Rattle.ring_rule.specs.Plays.{MayPublish};
ghost use Rattle.ring_lanes.specs.Writer.{MayFillAll};

use pr_base::Deal;
use ring_rule::WriterSeat;

/// Fills, once each, the lane for the row numbered head of every reader that the writer has not seen leave.
pub fn fill_lanes<D: Deal>(seat: &mut WriterSeat<'_, D>, known: &[u64], readers: u32, row: &[u8])
    requires may { MayFillAll seat.old.view }
    requires readers { readers ≡ seat.old.view.ring.readers }
    requires known { known.now ≡ seat.old.view.known }
    requires row { row.now ≡ row_at seat.old.view.ring seat.old.view.head }
    ensures may { MayPublish seat.new.view }
    ensures count { length seat.new.view.filled ≡ seat.new.view.ring.readers }
    ensures same { seat.new ≡ record seat.old {
      view = record seat.old.view { filled = seat.new.view.filled };
    } }
{
    for reader in 0..readers {
        if known[reader as usize] != u64::MAX {
            seat.fill(reader, row);
        }
    }
}

// A row of a plate, composed of drawn rows of both sides.
ghost use Rattle.std.specs.Prelude.{◌≡◌, ◌+◌, ◌≤◌, IfSome, length};
ghost use Rattle.pr_base.specs.Row.{row_size};
ghost use Rattle.plan_json.specs.Data.{plate_width};
ghost use Rattle.press_feed.specs.Drawn.{HasRow};
ghost use Rattle.press_feed.specs.Frames.{AreOf};
ghost use Rattle.press_feed.specs.PlateRow.{IsJoined, IsRowsOf, IsUnion};
ghost use Rattle.press_feed.specs.Plates.{DrawsPages};
ghost use Rattle.press_job.specs.Job.{JobData};

use crate::byte_row::clear;
use crate::drawn_rows::{DrawnRows, byte_of};
use crate::side::Side;
use plan_rows::Group;
use pr_base::Ink;
use press_job::Job;

/// Draws row `y` of the pages of a group on a row of a plate, and nothing else, from rows of both sides in
/// the same ink.
pub(crate) fn join_sides(
    job: &Job,
    group: &Group,
    ink: Ink,
    y: u32,
    left: &DrawnRows<'_>,
    right: &DrawnRows<'_>,
    bits: &mut [u8],
)
    requires left { IsRowsOf job.now Side.Left ink left.now }
    requires right { IsRowsOf job.now Side.Right ink right.now }
    requires left_row { HasRow left.now group.now.left y }
    requires right_row { HasRow right.now group.now.right y }
    requires row { length bits.old ≡ row_size (plate_width job.now.plan) }
    ensures { DrawsPages job.now group.now ink y bits.new }
{
    clear(bits);
    join_at(left.row(y), byte_of(job, Side::Left), bits);
    join_at(right.row(y), byte_of(job, Side::Right), bits);
}

/// Sets the pixels of a row that are set in another one, whose first byte is byte `at` of the row.
fn join_at(row: &[u8], at: usize, bits: &mut [u8])
    requires { at + length row.now ≤ length bits.old }
    ensures { IsJoined row.now at bits.old bits.new }
{
    join(row, &mut bits[at..at + row.len()]);
}

/// Sets the pixels of a row that are set in another one of as many bytes.
fn join(row: &[u8], bits: &mut [u8])
    requires { length bits.old ≡ length row.now }
    ensures { IsUnion row.now bits.old bits.new }
{
    for k in 0..row.len() {
        bits[k] |= row[k];
    }
}

/// Lends the rows of a side and an ink that have row `y` of a page, if there are any.
pub(crate) fn rows_with<'r, 'j>(
    rows: &'r [DrawnRows<'j>],
    side: Side,
    ink: Ink,
    page: usize,
    y: u32,
) -> Option<&'r DrawnRows<'j>>
    ensures job { IfSome result (λ found.
        (job : JobData) → AreOf job rows.now → IsRowsOf job side ink found.now) }
    ensures row { IfSome result (λ found. HasRow found.now page y) }
{
    for drawn in rows {
        if drawn.side() == side && drawn.ink() == ink && drawn.has(page, y) {
            return Some(drawn);
        }
    }
    None
}

// Whether the plates held by a shelf are those of an edition.
ghost use Rattle.std.specs.Prelude.{◌≡◌, ◌<◌, ◌≤◌, ℕ, List, IfOk, IfSome, IsErrOf, OnOk, length, map};
ghost use Rattle.std.specs.Prelude.{slice_index_or};
ghost use Rattle.pr_base.specs.Count.{Rose};
ghost use Rattle.pr_base.specs.Row.{row_size};
ghost use Rattle.tif_packbits.specs.Frame.{AreFrames, frame_size, framed_row};
ghost use Rattle.tif_plate.specs.Plate.{IsDpi, IsSide};
ghost use Rattle.plan_json.specs.Data.{plate_width};
ghost use Rattle.plan_json.specs.Plan.{IsPlan};
ghost use Rattle.plan_rows.specs.Groups.{groups_of};
ghost use Rattle.plan_rows.specs.Rows.{row_total, rows_of};
ghost use Rattle.plate_verify.specs.Verifying.{AfterAll, FailsAt, IfLong, Verified, UnlessLong};
ghost use Rattle.plate_verify.specs.Verifying.{shelf_told, told};
ghost use Rattle.plate_verify.specs.Making.{HaveSides};
ghost use Rattle.plate_verify.specs.Order.{plates_in_order};
ghost use Rattle.plate_verify.specs.Verify.{CanBeVerified, FedFrom, IfShelf, answer_of};
ghost use Rattle.plate_verify.specs.Wrong.{first_wrong};

use crate::count::count_plates;
use crate::group::verify_group;
use crate::{Checked, VerifyFault};
use plan_json::Plan;
use plan_rows::{Group, RowPlan, plate_sides};
use plate_bytes::PlateBytes;
use pr_base::{INKS, NoMemory, RowFeed, row_bytes};
use pr_ports::Shelf;
use std::alloc::Global;
use tif_packbits::frame_len;
use tif_plate::Sides;

/// What is constant during a verification: the plan, and the folder of the plates.
#[derive(Drop)]
pub(crate) struct Edition<'e> {
    pub(crate) alloc: Global,
    pub(crate) plan: &'e Plan,
    pub(crate) out: &'e str,
}

/// Returns plates in memory for a group.
fn plates_for(alloc: Global, sides: Sides) -> Result<Vec<PlateBytes>, NoMemory>
    requires width { IsSide sides.width }
    requires height { IsSide sides.height }
    requires dpi { IsDpi sides.dpi }
    ensures sides { IfOk result (λ plates. HaveSides sides plates.items) }
    ensures five { IfOk result (λ plates. length plates.items ≡ 5) }
{
    let mut plates = Vec::new(alloc);
    for _i in 0..INKS {
        plates.push(PlateBytes::new(alloc, sides.width, sides.height, sides.dpi)?)?;
    }
    Ok(plates)
}

/// Returns a buffer for the frame of a row.
fn frame_room(alloc: Global, width: u32) -> Result<Vec<u8>, NoMemory>
    requires { IsSide width }
    ensures { IfOk result (λ room. length room.items ≡ frame_size (row_size width)) }
{
    let room = vec![in alloc; 0; frame_len(row_bytes(width))]?;
    Ok(room)
}

/// Lends the group with this index.
pub(crate) fn group_at<'a>(plan: &Plan, rows: &'a RowPlan, index: usize) -> &'a Group
    requires rows { rows.now ≡ rows_of plan.now }
    requires index { index < length (groups_of plan.now) }
    ensures is { result.now ≡ slice_index_or (groups_of plan.now) index result.now }
    ensures section { result.now.section < length plan.now.sections }
    ensures plan { IsPlan plan.now }
{
    // Reading the plan makes its invariant available to the proof.
    let _files = plan.files();
    rows.group(index)
}

/// Verifies the plates of each group in order.
fn verify_groups<F: RowFeed, H: Shelf>(
    edition: &Edition<'_>,
    rows: &RowPlan,
    plates: &mut [PlateBytes],
    frame: &mut [u8],
    feed: &mut F,
    shelf: &mut H,
) -> Result<Option<Checked>, VerifyFault>
    requires rows { rows.now ≡ rows_of edition.now.plan.now }
    requires fed { CanBeVerified edition.now.plan.now plates.old (F.left feed.old) (length frame.old) }
    ensures { (all : List (List ℕ)) →
        FedFrom edition.now.plan.now all 0 plates.old (F.left feed.old) (length frame.old) →
        length all ≡ row_total rows.now →
        Verified edition.now.plan.now all edition.now.out.now (plates_in_order edition.now.plan.now)
        (shelf_told H.Shelf shelf.old) (shelf_told H.Shelf shelf.new) result }
{
    for index in 0..rows.group_count() {
        let group = group_at(edition.plan, rows, index);
        match verify_group(edition, group, plates, frame, feed, shelf) {
            Ok(None) => {}
            Ok(Some(found)) => return Ok(Some(found)),
            Err(fault) => return Err(fault),
        }
    }
    Ok(None)
}

/// Verifies all plates.
fn verify_all<F: RowFeed, H: Shelf>(
    edition: &Edition<'_>,
    rows: &RowPlan,
    feed: &mut F,
    shelf: &mut H,
) -> Result<Checked, VerifyFault>
    requires rows { rows.now ≡ rows_of edition.now.plan.now }
    requires frames { AreFrames (row_size (plate_width edition.now.plan.now))
        (map framed_row (F.left feed.old)) (F.left feed.old) }
    requires total { length (F.left feed.old) ≡ row_total rows.now }
    ensures { AfterAll edition.now.plan.now (map framed_row (F.left feed.old)) edition.now.out.now
        (shelf_told H.Shelf shelf.old) (shelf_told H.Shelf shelf.new) result }
{
    let sides = plate_sides(edition.plan);
    let mut plates = plates_for(edition.alloc, sides)?;
    let mut frame = frame_room(edition.alloc, sides.width)?;
    let verified = verify_groups(edition, rows, &mut plates, &mut frame, feed, shelf);
    answer(edition.plan, rows, verified)
}

/// Returns the result after all plates were verified, or after the first that does not match was found.
fn answer(
    plan: &Plan,
    rows: &RowPlan,
    verified: Result<Option<Checked>, VerifyFault>,
) -> Result<Checked, VerifyFault>
    requires { rows.now ≡ rows_of plan.now }
    ensures { result ≡ answer_of plan.now verified }
{
    match verified {
        Ok(None) => Ok(Checked::Same {
            plates: count_plates(plan, rows),
        }),
        Ok(Some(found)) => Ok(found),
        Err(fault) => Err(fault),
    }
}

/// Verifies that the plates held by a shelf below the folder `out` are those of a plan, whose rows come from
/// the feed. Loads each plate once, in the order group, ink, site, up to the first that does not match. The
/// plates of a group are made in memory from the packed rows of the feed, and compared with the loaded bytes
/// in place.
pub fn verify<F: RowFeed, H: Shelf>(
    alloc: Global,
    plan: &Plan,
    rows: &RowPlan,
    feed: &mut F,
    out: &str,
    shelf: &mut H,
) -> Result<Checked, VerifyFault>
    requires rows { rows.now ≡ rows_of plan.now }
    requires frames { AreFrames (row_size (plate_width plan.now)) (map framed_row (F.left feed.old))
        (F.left feed.old) }
    requires total { length (F.left feed.old) ≡ row_total rows.now }
    ensures found { IfOk result (λ checked. IfSome (H.held shelf.old) (λ held.
        first_wrong plan.now (map framed_row (F.left feed.old)) out.now held ≡ told checked)) }
    ensures long { IfOk result (λ checked. IfLong checked (Rose (H.longs shelf.old) (H.longs shelf.new))) }
    ensures short { IfOk result (λ checked. UnlessLong checked (H.longs shelf.new ≡ H.longs shelf.old)) }
    // The failed load was counted, for the path of a plate before which all plates match.
    ensures failed { IfShelf result (FailsAt plan.now (map framed_row (F.left feed.old)) out.now
        (plates_in_order plan.now) (shelf_told H.Shelf shelf.old) (shelf_told H.Shelf shelf.new)) }
    ensures ok_missed { OnOk result (H.missed shelf.new ≡ H.missed shelf.old) }
    ensures memory_missed { IsErrOf result VerifyFault.Memory → H.missed shelf.new ≡ H.missed shelf.old }
    ensures ok_faults { OnOk result (H.faults shelf.new ≡ H.faults shelf.old) }
    ensures memory_faults { IsErrOf result VerifyFault.Memory → H.faults shelf.new ≡ H.faults shelf.old }
    ensures memory_longs { IsErrOf result VerifyFault.Memory → H.longs shelf.new ≡ H.longs shelf.old }
    ensures held { H.held shelf.new ≡ H.held shelf.old }
    ensures faults_stay { H.faults shelf.old ≤ H.faults shelf.new }
    ensures longs_stay { H.longs shelf.old ≤ H.longs shelf.new }
{
    let edition = Edition { alloc, plan, out };
    verify_all(&edition, rows, feed, shelf)
}

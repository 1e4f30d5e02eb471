// One group: its plates are made from the next rows of a feed and then verified.
ghost use Rattle.std.specs.Prelude.{◌≡◌, ◌+◌, ◌*◌, ◌<◌, ℕ, List, OnOk, length};
ghost use Rattle.plan_json.specs.Data.{plate_height};
ghost use Rattle.plan_rows.specs.Inks.{ink_count};
ghost use Rattle.plate_verify.specs.Verifying.{Verified, group_sites, shelf_told};
ghost use Rattle.plate_verify.specs.Verify.{CanMakeGroup, FedFrom, FedGroup};

use crate::edition::Edition;
use crate::inks::{ink_number, verify_plates};
use crate::making::make_plates;
use crate::{Checked, VerifyFault};
use plan_rows::{Group, plate_sides};
use plate_bytes::PlateBytes;
use pr_base::RowFeed;
use pr_ports::Shelf;

/// Makes the plates of a group from the next rows of a feed, and verifies each at all its sites.
pub(crate) fn verify_group<F: RowFeed, H: Shelf>(
    edition: &Edition<'_>,
    group: &Group,
    plates: &mut [PlateBytes],
    frame: &mut [u8],
    feed: &mut F,
    shelf: &mut H,
) -> Result<Option<Checked>, VerifyFault>
    requires section { group.now.section < length edition.now.plan.now.sections }
    requires fed { CanMakeGroup edition.now.plan.now group.now plates.old (F.left feed.old)
        (length frame.old) }
    ensures verified { (rows : List (List ℕ)) →
        FedGroup edition.now.plan.now rows group.now plates.old (F.left feed.old) (length frame.old) →
        Verified edition.now.plan.now rows edition.now.out.now (group_sites edition.now.plan.now group.now)
        (shelf_told H.Shelf shelf.old) (shelf_told H.Shelf shelf.new) result }
    ensures fed { OnOk result ((rows : List (List ℕ)) →
        FedGroup edition.now.plan.now rows group.now plates.old (F.left feed.old) (length frame.old) →
        FedFrom edition.now.plan.now rows
        (group.now.first + plate_height edition.now.plan.now * ink_count group.now)
        plates.new (F.left feed.new) (length frame.new)) }
{
    let made = &mut plates[..ink_number(group)];
    make_plates(made, plate_sides(edition.plan).height, feed, frame)?;
    verify_plates(edition, group, made, shelf)
}

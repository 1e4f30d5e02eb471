// Compares the held plates of a group with those that were made.
ghost use Rattle.std.specs.Prelude.{◌≡◌, ◌<◌, ◌≤◌, ℕ, List, Some, length, option_map, slice_get};
ghost use Rattle.plate_bytes.specs.Places.{row_ends, row_holding};
ghost use Rattle.pr_ports.specs.Difference.{difference_of};
ghost use Rattle.plate_verify.specs.Verifying.{AreMade, IsMade, Verified, group_sites, plates_at, shelf_told};
ghost use Rattle.plate_verify.specs.Verifying.{told};
ghost use Rattle.plan_rows.specs.Inks.{ink_count, inks_of};
ghost use Rattle.plate_verify.specs.Order.{plate_sites};
ghost use Rattle.plate_verify.specs.Wrong.{OtherAt};

use crate::edition::Edition;
use crate::{Checked, VerifyFault};
use plan_rows::{Group, plate_path};
use plate_bytes::PlateBytes;
use pr_base::{Ink, PathText};
use pr_ports::{LoadFault, Shelf};

/// The largest number of bytes read of a plate. No plate is longer.
const MOST_BYTES: u64 = 600_000_000;

/// Compares the plate of a site with the one that was made, if the site has it.
fn verify_at_site<H: Shelf>(
    edition: &Edition<'_>,
    group: &Group,
    ink: Ink,
    site: usize,
    made: &PlateBytes,
    shelf: &mut H,
) -> Result<Option<Checked>, VerifyFault>
    requires site { site < length edition.now.plan.now.sites }
    requires few { site < 16 }
    requires section { group.now.section < length edition.now.plan.now.sections }
    ensures { (rows : List (List ℕ)) → IsMade edition.now.plan.now rows (group.now, ink) made.now →
        Verified edition.now.plan.now rows edition.now.out.now (plates_at (group.now, ink) site)
        (shelf_told H.Shelf shelf.old) (shelf_told H.Shelf shelf.new) result }
{
    if !group.has_site(site) {
        return Ok(None);
    }
    let path = plate_path(edition.alloc, edition.plan, edition.out, site, group, ink)?;
    match shelf.compare(path.as_str(), MOST_BYTES, made.bytes()) {
        Ok(None) => Ok(None),
        Ok(Some(at)) => Ok(Some(Checked::Differs {
            path,
            at,
            row: made.row_of(at),
        })),
        Err(LoadFault::Failed) => Err(VerifyFault::Shelf(path)),
        Err(LoadFault::TooLong { .. }) => Ok(Some(Checked::Long { path })),
        Err(LoadFault::Memory) => Err(VerifyFault::Memory),
    }
}

/// Verifies a plate at each site that has it.
fn verify_at_sites<H: Shelf>(
    edition: &Edition<'_>,
    group: &Group,
    ink: Ink,
    made: &PlateBytes,
    shelf: &mut H,
) -> Result<Option<Checked>, VerifyFault>
    requires { group.now.section < length edition.now.plan.now.sections }
    ensures { (rows : List (List ℕ)) → IsMade edition.now.plan.now rows (group.now, ink) made.now →
        Verified edition.now.plan.now rows edition.now.out.now
        (plate_sites edition.now.plan.now (group.now, ink))
        (shelf_told H.Shelf shelf.old) (shelf_told H.Shelf shelf.new) result }
{
    for site in 0..edition.plan.site_count() {
        match verify_at_site(edition, group, ink, site, made, shelf) {
            Ok(None) => {}
            Ok(Some(found)) => return Ok(Some(found)),
            Err(fault) => return Err(fault),
        }
    }
    Ok(None)
}

/// Looks at the plates of a group, ink by ink, each at all its sites before the next.
pub(crate) fn verify_plates<H: Shelf>(
    edition: &Edition<'_>,
    group: &Group,
    made: &[PlateBytes],
    shelf: &mut H,
) -> Result<Option<Checked>, VerifyFault>
    requires section { group.now.section < length edition.now.plan.now.sections }
    requires made { ink_count group.now ≤ length made.now }
    ensures { (rows : List (List ℕ)) → AreMade edition.now.plan.now rows group.now made.now →
        Verified edition.now.plan.now rows edition.now.out.now (group_sites edition.now.plan.now group.now)
        (shelf_told H.Shelf shelf.old) (shelf_told H.Shelf shelf.new) result }
{
    for i in 0..ink_number(group) {
        let ink = ink_at(group, i);
        match verify_at_sites(edition, group, ink, plate_at(made, i), shelf) {
            Ok(None) => {}
            Ok(Some(found)) => return Ok(Some(found)),
            Err(fault) => return Err(fault),
        }
    }
    Ok(None)
}

/// The number of inks of a group.
pub(crate) fn ink_number(group: &Group) -> usize
    ensures count { result ≡ ink_count group.now }
    ensures within { result ≤ 5 }
{
    group.inks().len()
}

/// The ink with this index.
fn ink_at(group: &Group, i: usize) -> Ink
    requires { i < ink_count group.now }
    ensures { slice_get (inks_of group.now) i ≡ Some result }
{
    group.inks()[i]
}

/// Lends a plate that was made.
fn plate_at(made: &[PlateBytes], i: usize) -> &PlateBytes
    requires { i < length made.now }
    ensures { slice_get made.now i ≡ Some result.now }
{
    &made[i]
}

// The delivery of the plates that must be made.
ghost use Rattle.std.specs.Prelude.{◌≡◌, ◌≤◌, IfOk, OnErr, drop, length, map};
ghost use Rattle.tif_packbits.specs.Frame.{framed_row};
ghost use Rattle.pr_rack.specs.Told.{all_told};
ghost use Rattle.plan_rows.specs.Groups.{groups_of};
ghost use Rattle.site_agent.specs.Racks.{AreIdle, KeepCounts};
ghost use Rattle.replate.specs.Remade.{AreRowsOf, RemadeFits, RemadePart, by_picks};

use crate::remaking::Remaking;
use crate::{Inputs, Picks, RemadeEnd};
use pr_base::{Deal, NoMemory};
use pr_feed::PassingFeed;
use pr_rack::Rack;
use std::alloc::Global;

/// Makes the plates of a new job that must be made, each site's on the rack with its number, with paths below
/// the folder `out`. The feed gives the rows of the deal in order. A site whose rack fails leaves, and the
/// others continue. Once no site has a plate left to make, no further row is requested.
pub fn deliver<D: Deal, F: PassingFeed, R: Rack>(
    alloc: Global,
    deal: &D,
    feed: &mut F,
    after: &Inputs<'_>,
    picks: &Picks,
    out: &str,
    racks: &mut [R],
) -> Result<Vec<RemadeEnd>, NoMemory>
    requires picks { length picks.now.kept ≡ length (groups_of after.now.plan) }
    requires rows { AreRowsOf after.now.plan (D.rows deal.now) }
    requires feed { F.left feed.old ≡ D.rows deal.now }
    requires racks { length after.now.plan.sites ≤ length racks.old }
    requires idle { AreIdle (length after.now.plan.sites) (all_told R.Rack racks.old) }
    // Each site's end fits what its rack has in addition to before.
    ensures fits { IfOk result (λ ends. RemadeFits
        (by_picks after.now.plan (map framed_row (D.rows deal.now)) out.now picks.now)
        (all_told R.Rack racks.old) (all_told R.Rack racks.new) ends.items) }
    // Out of memory: each rack has, in addition, the first of the files that its site was to make.
    ensures part { OnErr result (RemadePart
        (by_picks after.now.plan (map framed_row (D.rows deal.now)) out.now picks.now)
        (all_told R.Rack racks.old) (all_told R.Rack racks.new)) }
    // What holds of the racks on every outcome.
    ensures counts { KeepCounts (all_told R.Rack racks.old) (all_told R.Rack racks.new) }
    ensures others { drop (length after.now.plan.sites) racks.new
        ≡ drop (length after.now.plan.sites) racks.old }
{
    let plan = after.plan();
    let sites = plan.site_count();
    let (racks, _others) = racks.split_at_mut(sites);
    let remaking = Remaking {
        alloc,
        after,
        picks,
        out,
    };
    remaking.make_plates(deal, feed, racks)
}

// Reading the print sites of a plan.
ghost use Rattle.std.specs.Prelude.{codes};
ghost use Rattle.plan_parts.specs.Gives.{Gives};
ghost use Rattle.plan_parts.specs.Node.{inside};
ghost use Rattle.plan_parts.specs.Reading.{required};
ghost use Rattle.plan_json.specs.Zoning as spec;

use crate::{PlanSite, Zone};
use plan_parts::{Defined, ItemReader, ListOf, NewName, Node, Object, PlanFault, Reader};

// Reads the zone of a site: the name of one of these zones.
#[derive(Drop)]
struct SiteZoneReader<'x> {
    zones: &'x [Zone],
}

impl Reader for SiteZoneReader<'_> {
    type Out = Option<usize>;

    ghost reads = { λ site. spec.site_zone (spec.zone_names site.zones.now) };

    #[tactic(auto, unfolding(crate::specs::Zoning::site_zone))]
    fn read(&self, node: Node<'_>) -> Result<Option<usize>, PlanFault> {
        Ok(Some(Defined(self.zones).read(node)?))
    }
}

// Reads a site, and its zone by the zone's reader.
#[derive(Drop)]
struct SiteReader<'x> {
    zone: SiteZoneReader<'x>,
}

impl ItemReader for SiteReader<'_> {
    type Item = PlanSite;

    ghost reads = { λ site. spec.site (spec.zone_names site.zone.zones.now) };

    #[tactic(auto, unfolding(crate::specs::Zoning::site))]
    fn read_item(&self, earlier: &[PlanSite], node: Node<'_>) -> Result<PlanSite, PlanFault> {
        let o = node.object(&["name", "zone"])?;
        let name = o.required("name", &NewName(earlier))?;
        let zone = o.optional("zone", None, &self.zone)?;
        Ok(PlanSite { name, zone })
    }
}

/// Reads the sites of a plan with these zones: the value of the key `sites` of its top object.
#[tactic(auto, unfolding(crate::specs::Zoning::sites))]
pub(crate) fn sites_in(o: &Object<'_>, zones: &[Zone]) -> Result<Vec<PlanSite>, PlanFault>
    ensures { Gives (λ v. v.items) result
        (inside o.now (required (codes "sites") (spec.sites (spec.zone_names zones.now)))) }
{
    let zone = SiteZoneReader { zones };
    o.required("sites", &ListOf(1, 16, SiteReader { zone }))
}

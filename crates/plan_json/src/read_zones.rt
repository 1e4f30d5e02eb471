// Reading the zones of a plan.
ghost use Rattle.std.specs.Prelude.{◌≡◌, ◌≤◌, ◌<◌, [], length, codes};
ghost use Rattle.std.specs.List.{list_any};
ghost use Rattle.plan_json.specs.Pages.{page_names};
ghost use Rattle.plan_parts.specs.Gives.{Gives};
ghost use Rattle.plan_parts.specs.Node.{inside};
ghost use Rattle.plan_parts.specs.Reading.{optional};
ghost use Rattle.plan_json.specs.Zoning as spec;

use crate::named::NamedPage;
use crate::{Replace, Section, Zone};
use plan_parts::{Defined, ItemReader, ListOf, NewName, Node, Number, Object, PlanFault, Reader};

// Reads the number, from 1, of a page in a section of `count` pages that no earlier item replaces.
#[derive(Drop)]
struct NewPageReader<'x> {
    earlier: &'x [Replace],
    section: usize,
    count: usize,
}

impl Reader for NewPageReader<'_> {
    type Out = u64;

    ghost reads = { λ page. spec.new_page page.earlier.now page.section page.count };

    ghost keeps = { λ page n. n ≤ page.count };

    #[tactic(auto, unfolding(crate::specs::Zoning::new_page))]
    fn read(&self, node: Node<'_>) -> Result<u64, PlanFault> {
        let page = Number(1, self.count as u64).read(node)?;
        if is_replaced(self.earlier, self.section, page) {
            return Err(PlanFault::Repeat(node.path()?));
        }
        Ok(page)
    }
}

fn is_replaced(earlier: &[Replace], section: usize, page: u64) -> bool
    ensures { result ≡ list_any (spec.replaces section page) earlier.now }
{
    earlier.iter().any(|item| item.section == section && u64::from(item.page) == page)
}

fn page_count(sections: &[Section], section: usize) -> usize
    requires { section < length sections.now }
    ensures count { result ≡ spec.page_count sections.now section }
    ensures most { result ≤ 128 }
{
    let section = &sections[section];
    section.pages.len()
}

// Reads a replacement: a page of one of these sections, and the one of these pages that is printed instead.
#[derive(Clone, Copy)]
struct ReplaceReader<'x> {
    pages: &'x [NamedPage],
    sections: &'x [Section],
}

impl ItemReader for ReplaceReader<'_> {
    type Item = Replace;

    ghost reads = { λ plan. spec.replace (page_names plan.pages.now) plan.sections.now };

    #[tactic(auto, unfolding(crate::specs::Zoning::replace))]
    fn read_item(&self, earlier: &[Replace], node: Node<'_>) -> Result<Replace, PlanFault> {
        let o = node.object(&["section", "page", "with"])?;
        let section = o.required("section", &Defined(self.sections))?;
        let count = page_count(self.sections, section);
        let new_page = NewPageReader {
            earlier,
            section,
            count,
        };
        let page = o.required("page", &new_page)? as u32;
        let with = o.required("with", &Defined(self.pages))?;
        Ok(Replace {
            section,
            page,
            with,
        })
    }
}

// Reads a zone, and its replacements by their reader.
#[derive(Drop)]
struct ZoneReader<'x> {
    replace: ReplaceReader<'x>,
}

impl ItemReader for ZoneReader<'_> {
    type Item = Zone;

    ghost reads = { λ zone. spec.zone (page_names zone.replace.pages.now) zone.replace.sections.now };

    #[tactic(auto, unfolding(crate::specs::Zoning::zone, crate::specs::Zoning::replaced))]
    fn read_item(&self, earlier: &[Zone], node: Node<'_>) -> Result<Zone, PlanFault> {
        let o = node.object(&["name", "replace"])?;
        let name = o.required("name", &NewName(earlier))?;
        let replace = o.required("replace", &ListOf(0, 1024, self.replace))?;
        Ok(Zone { name, replace })
    }
}

/// Reads the zones of a plan with these pages and sections: the value of the key `zones` of its top object,
/// or none if the key is absent.
#[tactic(auto, unfolding(crate::specs::Zoning::zones))]
pub(crate) fn zones_in(
    o: &Object<'_>,
    pages: &[NamedPage],
    sections: &[Section],
) -> Result<Vec<Zone>, PlanFault>
    ensures { Gives (λ v. v.items) result (inside o.now
        (optional (codes "zones") [] (spec.zones (page_names pages.now) sections.now))) }
{
    let replace = ReplaceReader { pages, sections };
    o.optional(
        "zones",
        Vec::new(o.alloc),
        &ListOf(0, 16, ZoneReader { replace }),
    )
}

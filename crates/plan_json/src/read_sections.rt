// Reading the sections of a plan.
ghost use Rattle.std.specs.Prelude.{◌≤◌, List, ℕ, length, codes};
ghost use Rattle.plan_json.specs.Pages.{page_names};
ghost use Rattle.plan_parts.specs.Gives.{Gives};
ghost use Rattle.plan_parts.specs.Node.{inside};
ghost use Rattle.plan_parts.specs.Reading.{required};
ghost use Rattle.plan_json.specs.Zoning as spec;

use crate::Section;
use crate::named::NamedPage;
use plan_parts::{Defined, ItemReader, ListOf, NewName, Node, Object, PlanFault, Reader};

// Reads the pages of a section: an even number of names of these pages.
#[derive(Drop)]
struct SectionPagesReader<'x> {
    pages: &'x [NamedPage],
}

impl Reader for SectionPagesReader<'_> {
    type Out = Vec<usize>;

    ghost shows = { record { Seen = List ℕ; seen = λ v. v.items } };

    ghost reads = { λ section. spec.section_pages (page_names section.pages.now) };

    ghost keeps = { λ _ v. length v.items ≤ 128 };

    #[tactic(auto, unfolding(crate::specs::Zoning::section_pages))]
    fn read(&self, node: Node<'_>) -> Result<Vec<usize>, PlanFault> {
        let items = node.items(2, 128)?;
        if items.count() % 2 != 0 {
            return Err(PlanFault::Range(node.path()?));
        }
        items.each(&Defined(self.pages))
    }
}

// Reads a section, and its pages by their reader.
#[derive(Drop)]
struct SectionReader<'x> {
    pages: SectionPagesReader<'x>,
}

impl ItemReader for SectionReader<'_> {
    type Item = Section;

    ghost reads = { λ section. spec.section (page_names section.pages.pages.now) };

    #[tactic(auto, unfolding(crate::specs::Zoning::section))]
    fn read_item(&self, earlier: &[Section], node: Node<'_>) -> Result<Section, PlanFault> {
        let o = node.object(&["name", "pages"])?;
        let name = o.required("name", &NewName(earlier))?;
        let pages = o.required("pages", &self.pages)?;
        Ok(Section { name, pages })
    }
}

/// Reads the sections of a plan with these pages: the value of the key `sections` of its top object.
#[tactic(auto, unfolding(crate::specs::Zoning::sections))]
pub(crate) fn sections_in(o: &Object<'_>, pages: &[NamedPage]) -> Result<Vec<Section>, PlanFault>
    ensures { Gives (λ v. v.items) result
        (inside o.now (required (codes "sections") (spec.sections (page_names pages.now)))) }
{
    let pages = SectionPagesReader { pages };
    o.required("sections", &ListOf(1, 8, SectionReader { pages }))
}

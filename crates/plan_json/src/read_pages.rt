// Reading pages.
ghost use Rattle.std.specs.Prelude.{codes};
ghost use Rattle.plan_parts.specs.Gives.{Gives};
ghost use Rattle.plan_parts.specs.Node.{at, inside};
ghost use Rattle.plan_parts.specs.Reading.{required};
ghost use Rattle.plan_json.specs.Pages as spec;

use crate::named::NamedPage;
use crate::read_layers::layers_in;
use plan_parts::{ItemReader, ListOf, NewName, Node, Object, PlanFault, Reader};

// Returns whether a page prints C, M and Y, and whether it prints S.
#[tactic(auto, unfolding(crate::specs::Pages::inks_named))]
fn inks_named(spot: bool, node: Node<'_>, s: &str) -> Result<(bool, bool), PlanFault>
    ensures { Gives (λ i. i) result (at node.entry (λ path _. spec.inks_named spot path s.now)) }
{
    if s == "K" {
        return Ok((false, false));
    }
    if s == "CMYK" {
        return Ok((true, false));
    }
    if spot && s == "KS" {
        return Ok((false, true));
    }
    if spot && s == "CMYKS" {
        return Ok((true, true));
    }
    Err(PlanFault::Range(node.path()?))
}

// Reads which inks a page prints.
#[derive(Drop)]
struct PageInksReader {
    spot: bool,
}

impl Reader for PageInksReader {
    type Out = (bool, bool);

    ghost reads = { λ inks. spec.page_inks inks.spot };

    #[tactic(auto, unfolding(crate::specs::Pages::page_inks))]
    fn read(&self, node: Node<'_>) -> Result<(bool, bool), PlanFault> {
        let s = node.text()?;
        inks_named(self.spot, node, s)
    }
}

// Reads the keys of a page.
fn page_of(o: &Object<'_>, spot: bool, earlier: &[NamedPage]) -> Result<NamedPage, PlanFault>
    ensures { Gives (λ p. p) result (inside o.now (spec.page_in spot earlier.now)) }
{
    let name = o.required("name", &NewName(earlier))?;
    let inks = o.required("inks", &PageInksReader { spot })?;
    let layers = layers_in(o, spot)?;
    Ok(NamedPage {
        name,
        colour: inks.0,
        spot: inks.1,
        layers,
    })
}

// Reads a page, whose name no earlier page may have.
#[derive(Drop)]
struct PageReader {
    spot: bool,
}

impl ItemReader for PageReader {
    type Item = NamedPage;

    ghost reads = { λ page. spec.page page.spot };

    #[tactic(auto, unfolding(crate::specs::Pages::page))]
    fn read_item(&self, earlier: &[NamedPage], node: Node<'_>) -> Result<NamedPage, PlanFault> {
        let o = node.object(&["name", "inks", "layers"])?;
        page_of(&o, self.spot, earlier)
    }
}

/// Reads the pages of a plan: the value of the key `pages` of its top object. Fails with the first fault.
#[tactic(auto, unfolding(crate::specs::Pages::pages))]
pub fn pages_in(o: &Object<'_>, spot: bool) -> Result<Vec<NamedPage>, PlanFault>
    ensures { Gives (λ v. v.items) result (inside o.now (required (codes "pages") (spec.pages spot))) }
{
    o.required("pages", &ListOf(1, 2048, PageReader { spot }))
}

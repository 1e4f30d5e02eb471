// Reading a plan: from bytes to a JSON value, and from the value to the plan by its table.
ghost use Rattle.std.specs.Prelude.{◌≡◌, ◌≢◌, IfOk, IfErr, Ok, Err};
ghost use Rattle.plan_parts.specs.Gives.{Gives};
ghost use Rattle.plan_parts.specs.Node.{inside};
ghost use Rattle.plan_json.specs.PlanOf as spec;
ghost use Rattle.plan_parts.specs.Reading.{some_or};
ghost use Rattle.plan_parts.specs.declared.fault.PlanFault.TheVariants.{Memory, NotJson};
ghost use Rattle.serde_json.specs.View.{view};

use crate::files::pages_and_files;
use crate::first_keys::first_keys_in;
use crate::named::NamedPage;
use crate::read_pages::pages_in;
use crate::read_sections::sections_in;
use crate::read_sites::sites_in;
use crate::read_zones::zones_in;
use crate::{Plan, PlanSite, Section, Zone};
use plan_parts::{
    Mark, Node, Number, Object, Place, PlanCurve, PlanFault, PlanTile, Screen, curves_in, marks_in,
    screens_in, tiles_in,
};
use serde_json::Value;
use std::alloc::Global;
use std::marker::Model;

// How inks are printed.
#[derive(Drop)]
struct Inks {
    tiles: Vec<PlanTile>,
    screens: [Screen; 5],
    curves: [PlanCurve; 5],
    marks: Vec<Mark>,
}

impl Model for Inks {
    ghost use Rattle.plan_json.specs.Printed.{Inks as Printed};

    ghost Value = { Printed };

    ghost view = { λ i. record {
      tiles = i.tiles.items;
      screens = i.screens;
      curves = i.curves;
      marks = i.marks.items;
    } };
}

// Which pages are printed where.
#[derive(Drop)]
struct Layout {
    pages: Vec<NamedPage>,
    sections: Vec<Section>,
    zones: Vec<Zone>,
    sites: Vec<PlanSite>,
}

impl Model for Layout {
    ghost use Rattle.plan_json.specs.Printed.{Layout as LaidOut};

    ghost Value = { LaidOut };

    ghost view = { λ l. record {
      pages = l.pages.items;
      sections = l.sections.items;
      zones = l.zones.items;
      sites = l.sites.items;
    } };
}

#[tactic(auto, unfolding(crate::specs::PlanOf::inks))]
fn inks_in(o: &Object<'_>, spot: bool, width: u32, height: u32) -> Result<Inks, PlanFault>
    ensures { Gives (λ i. i) result (inside o.now (spec.inks spot width height)) }
{
    let tiles = tiles_in(o)?;
    let screens = screens_in(o, spot, tiles.as_slice())?;
    let curves = curves_in(o, spot)?;
    let marks = marks_in(o, spot, width, height)?;
    Ok(Inks {
        tiles,
        screens,
        curves,
        marks,
    })
}

#[tactic(auto, unfolding(crate::specs::PlanOf::layout))]
fn layout_in(o: &Object<'_>, spot: bool) -> Result<Layout, PlanFault>
    ensures { Gives (λ l. l) result (inside o.now (spec.layout spot)) }
{
    let pages = pages_in(o, spot)?;
    let named = pages.as_slice();
    let sections = sections_in(o, named)?;
    let zones = zones_in(o, named, sections.as_slice())?;
    let sites = sites_in(o, zones.as_slice())?;
    Ok(Layout {
        pages,
        sections,
        zones,
        sites,
    })
}

#[tactic(auto, unfolding(crate::specs::PlanOf::plan_by))]
fn plan_by(o: &Object<'_>, spot: bool) -> Result<Plan, PlanFault>
    ensures { Gives (λ p. p) result (inside o.now (spec.plan_by spot)) }
{
    let front = first_keys_in(o)?;
    let inks = inks_in(o, spot, front.plate_width(), front.plate_height())?;
    let layout = layout_in(o, spot)?;
    let (pages, files) = pages_and_files(o.alloc, layout.pages.as_slice())?;
    let Inks {
        tiles,
        screens,
        curves,
        marks,
    } = inks;
    Ok(Plan {
        edition: front.edition,
        dpi: front.dpi,
        page_width: front.page_width,
        page_height: front.page_height,
        margins: front.margins,
        gutter: front.gutter,
        limit: front.limit,
        tiles,
        screens,
        curves,
        marks,
        pages,
        sections: layout.sections,
        zones: layout.zones,
        sites: layout.sites,
        files,
    })
}

#[tactic(auto, unfolding(crate::specs::PlanOf::plan_in))]
fn plan_in(alloc: Global, value: &Value) -> Result<Plan, PlanFault>
    ensures { Gives (λ p. p) result (spec.plan_in (view value.now)) }
{
    let top = Node {
        alloc,
        place: Place::Top,
        value,
    };
    let o = top.object(&[
        "plan", "edition", "dpi", "page", "margins", "gutter", "limit", "tiles", "screens",
        "curves", "marks", "pages", "sections", "zones", "sites",
    ])?;
    let number = o.required("plan", &Number(1, 2))?;
    plan_by(&o, number == 2)
}

// Returns the JSON value of a text.
#[tactic(auto, unfolding(crate::specs::PlanOf::json_of))]
fn value_of(alloc: Global, bytes: &[u8]) -> Result<Value, PlanFault>
    ensures { Gives (λ v. view v) result (some_or NotJson (spec.json_of bytes.now)) }
{
    match Value::from_slice(alloc, bytes) {
        Ok(value) => Ok(value),
        Err(error) => {
            if error.is_memory() {
                Err(PlanFault::Memory)
            } else {
                Err(PlanFault::NotJson)
            }
        }
    }
}

/// Returns the plan of a JSON text, or its first fault with the fault's path.
#[tactic(auto, unfolding(crate::specs::PlanOf::plan_of))]
pub fn read_plan(alloc: Global, bytes: &[u8]) -> Result<Plan, PlanFault>
    // A plan that is returned is the plan of the text.
    ensures plan { IfOk result (λ plan. spec.plan_of bytes.now ≡ Ok plan) }
    // A fault that is returned is the text's first fault, unless memory ran out.
    ensures fault { IfErr result (λ fault. fault ≢ Memory → spec.plan_of bytes.now ≡ Err fault) }
{
    let value = value_of(alloc, bytes)?;
    plan_in(alloc, &value)
}

// The JSON text of a job's plan.
ghost use Rattle.std.specs.Prelude.{◌≡◌, ◌≤◌, IfOk, Ok, OnOk, string_bytes};
ghost use Rattle.job_gen.specs.Plan.{job_plan};
ghost use Rattle.job_gen.specs.Text.{job_value, layout_members, list_of, marks_value, printing_members};
ghost use Rattle.job_gen.specs.Text.{put_all, screens_value, value_with};
ghost use Rattle.plan_json.specs.PlanOf.{plan_of};
ghost use Rattle.serde_json.specs.View.{members_view, view};

use crate::layout::{pages, sections, sites, zones};
use crate::members::Plain::{Number, Numbers, Text};
use crate::members::{list_of_one, object, put_members};
use crate::numbers::{page_count, site_count, size};
use pr_base::NoMemory;
use serde_json::{Map, Value, put};
use std::alloc::Global;

/// Returns the text of the plan of job `n`.
pub(crate) fn plan_text(alloc: Global, n: u32) -> Result<String, NoMemory>
    ensures { IfOk result (λ text. plan_of (string_bytes text) ≡ Ok (job_plan n)) }
{
    let plan = plan_value(alloc, site_count(n), page_count(n), size(n))?;
    Ok(plan.to_string(alloc)?)
}

/// Returns the screens of the inks.
fn screens(alloc: Global) -> Result<Value, NoMemory>
    ensures { IfOk result (λ value. view value ≡ screens_value) }
{
    object(
        alloc,
        &[
            ("C", Text("bayer4")),
            ("M", Text("bayer8")),
            ("Y", Text("bayer16")),
            ("K", Text("diffuse")),
        ],
    )
}

/// Returns the mark in the plate's corner.
fn marks(alloc: Global) -> Result<Value, NoMemory>
    ensures { IfOk result (λ value. view value ≡ list_of marks_value) }
{
    let members = [
        ("inks", Text("CMYK")),
        ("x", Number(0)),
        ("y", Number(0)),
        ("w", Number(4)),
        ("h", Number(4)),
    ];
    list_of_one(alloc, object(alloc, &members)?)
}

/// Adds the members for printing: sizes, resolution, screens and marks.
fn put_printing(alloc: Global, size: u32, plan: &mut Map<String, Value>) -> Result<(), NoMemory>
    requires { size ≤ 16 }
    ensures { OnOk result (members_view plan.new.entries
        ≡ put_all (members_view plan.old.entries) (printing_members size)) }
{
    let first = [
        ("plan", Number(1)),
        ("edition", Text("DRILL")),
        ("dpi", Number(1200)),
        ("page", Numbers(&[64 * size, 48 * size])),
        ("margins", Numbers(&[8, 8, 8, 8])),
        ("gutter", Number(16)),
        ("limit", Number(612)),
    ];
    put_members(alloc, &first, plan)?;
    put(plan, alloc, "screens", screens(alloc)?)?;
    put(plan, alloc, "marks", marks(alloc)?)?;
    Ok(())
}

/// Adds the members for the layout: pages, sections, zones and sites.
#[tactic(auto, unfolding(crate::specs::Text::layout_members))]
fn put_layout(
    alloc: Global,
    site_count: u32,
    page_count: u32,
    plan: &mut Map<String, Value>,
) -> Result<(), NoMemory>
    requires { page_count ≤ 8 }
    ensures { OnOk result (members_view plan.new.entries
        ≡ put_all (members_view plan.old.entries) (layout_members site_count page_count)) }
{
    put(
        plan,
        alloc,
        "pages",
        Value::Array(pages(alloc, page_count)?),
    )?;
    put(plan, alloc, "sections", sections(alloc, page_count)?)?;
    put(plan, alloc, "zones", zones(alloc)?)?;
    put(
        plan,
        alloc,
        "sites",
        Value::Array(sites(alloc, site_count)?),
    )?;
    Ok(())
}

/// Returns a plan with this many sites and pages, and of this size.
#[tactic(auto, unfolding(crate::specs::Text::value_with))]
fn plan_value(alloc: Global, site_count: u32, page_count: u32, size: u32) -> Result<Value, NoMemory>
    requires pages { page_count ≤ 8 }
    requires size { size ≤ 16 }
    ensures { IfOk result (λ value. view value ≡ value_with site_count page_count size) }
{
    let mut plan = Map::new(alloc);
    put_printing(alloc, size, &mut plan)?;
    put_layout(alloc, site_count, page_count, &mut plan)?;
    Ok(Value::Object(plan))
}

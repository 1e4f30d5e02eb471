// The pages, the section, the zone and the sites of a job, as JSON.
ghost use Rattle.std.specs.Prelude.{◌≡◌, ◌<◌, ◌≤◌, IfOk, map};
ghost use Rattle.std.specs.List.{range_with_len};
ghost use Rattle.job_gen.specs.Text.{image_layer_value, layer_values, line_layer_value, list_of, name_values};
ghost use Rattle.job_gen.specs.Text.{other_page_value, page_value, pages_value, section_page_value};
ghost use Rattle.job_gen.specs.Text.{sections_value, site_value, sites_value, zones_value};
ghost use Rattle.serde_json.specs.View.{view};

use crate::members::Plain::{Number, Text};
use crate::members::{list_of_one, object, object_with};
use crate::names::{LINE_FILE, MASK_FILE, OTHER_FILE, OTHER_NAME, page_file, page_name, site_name};
use pr_base::NoMemory;
use serde_json::Value;
use std::alloc::Global;

/// Returns the layer of an image.
fn image_layer(alloc: Global, file: &str) -> Result<Value, NoMemory>
    ensures { IfOk result (λ value. view value ≡ image_layer_value file.now) }
{
    object(
        alloc,
        &[
            ("kind", Text("contone")),
            ("file", Text(file)),
            ("scale", Number(4)),
        ],
    )
}

/// Returns the layer of the linework.
fn line_layer(alloc: Global) -> Result<Value, NoMemory>
    ensures { IfOk result (λ value. view value ≡ line_layer_value) }
{
    object(
        alloc,
        &[
            ("kind", Text("line")),
            ("file", Text(LINE_FILE)),
            ("mask", Text(MASK_FILE)),
            ("scale", Number(4)),
            ("paint", Text("overprint")),
        ],
    )
}

/// Returns a page with these layers.
fn page(alloc: Global, name: &str, colour: bool, layers: Vec<Value>) -> Result<Value, NoMemory>
    ensures { IfOk result (λ value. view value ≡ page_value name.now colour (map view layers.items)) }
{
    let inks = if colour { "CMYK" } else { "K" };
    let members = [("name", Text(name)), ("inks", Text(inks))];
    object_with(alloc, &members, "layers", Value::Array(layers))
}

/// Returns the layers of page `j`.
fn layers(alloc: Global, j: u32) -> Result<Vec<Value>, NoMemory>
    ensures { IfOk result (λ values. map view values.items ≡ layer_values j) }
{
    let file = page_file(alloc, j)?;
    let mut layers = Vec::new(alloc);
    layers.push(image_layer(alloc, file.as_str())?)?;
    if j % 2 == 1 {
        layers.push(line_layer(alloc)?)?;
    }
    Ok(layers)
}

/// Returns page `j` of a section of `pages` pages.
fn section_page(alloc: Global, pages: u32, j: u32) -> Result<Value, NoMemory>
    requires { pages ≤ 8 }
    ensures { IfOk result (λ value. view value ≡ section_page_value pages j) }
{
    let name = page_name(alloc, j)?;
    let colour = !(j == pages / 2 || j == pages / 2 + 1);
    page(alloc, name.as_str(), colour, layers(alloc, j)?)
}

/// Returns the section's pages, followed by the replacement page.
#[tactic(auto, unfolding(crate::specs::Text::pages_value))]
pub(crate) fn pages(alloc: Global, pages: u32) -> Result<Vec<Value>, NoMemory>
    requires { pages ≤ 8 }
    ensures { IfOk result (λ values. map view values.items ≡ pages_value pages) }
{
    let mut values = section_pages(alloc, pages)?;
    values.push(other_page(alloc)?)?;
    Ok(values)
}

/// Returns the section's pages.
fn section_pages(alloc: Global, pages: u32) -> Result<Vec<Value>, NoMemory>
    requires { pages ≤ 8 }
    ensures { IfOk result (λ values. map view values.items
        ≡ map (section_page_value pages) (range_with_len 1 pages)) }
{
    let mut values = Vec::new(alloc);
    for k in 0..pages {
        values.push(section_page(alloc, pages, k + 1)?)?;
    }
    Ok(values)
}

/// Returns the page with which the zone replaces the section's first page.
fn other_page(alloc: Global) -> Result<Value, NoMemory>
    ensures { IfOk result (λ value. view value ≡ other_page_value) }
{
    let mut layers = Vec::new(alloc);
    layers.push(image_layer(alloc, OTHER_FILE)?)?;
    page(alloc, OTHER_NAME, true, layers)
}

/// Returns the names of the section's pages.
fn page_names(alloc: Global, pages: u32) -> Result<Vec<Value>, NoMemory>
    requires { pages ≤ 8 }
    ensures { IfOk result (λ values. map view values.items ≡ name_values pages) }
{
    let mut values = Vec::new(alloc);
    for k in 0..pages {
        values.push(Value::from(page_name(alloc, k + 1)?))?;
    }
    Ok(values)
}

/// Returns the list of the one section.
#[tactic(auto, unfolding(crate::specs::Text::sections_value))]
pub(crate) fn sections(alloc: Global, pages: u32) -> Result<Value, NoMemory>
    requires { pages ≤ 8 }
    ensures { IfOk result (λ value. view value ≡ list_of (sections_value pages)) }
{
    let names = Value::Array(page_names(alloc, pages)?);
    let section = object_with(alloc, &[("name", Text("A"))], "pages", names)?;
    list_of_one(alloc, section)
}

/// Returns the list of the one zone.
pub(crate) fn zones(alloc: Global) -> Result<Value, NoMemory>
    ensures { IfOk result (λ value. view value ≡ list_of zones_value) }
{
    let members = [
        ("section", Text("A")),
        ("page", Number(1)),
        ("with", Text(OTHER_NAME)),
    ];
    let replace = list_of_one(alloc, object(alloc, &members)?)?;
    let zone = object_with(alloc, &[("name", Text("Z"))], "replace", replace)?;
    list_of_one(alloc, zone)
}

/// Returns site `i`.
fn site(alloc: Global, i: u32) -> Result<Value, NoMemory>
    ensures { IfOk result (λ value. view value ≡ site_value i) }
{
    let name = site_name(alloc, i)?;
    if i % 2 == 1 {
        object(alloc, &[("name", Text(name.as_str())), ("zone", Text("Z"))])
    } else {
        object(alloc, &[("name", Text(name.as_str()))])
    }
}

/// Returns the sites.
#[tactic(auto, unfolding(crate::specs::Text::sites_value))]
pub(crate) fn sites(alloc: Global, sites: u32) -> Result<Vec<Value>, NoMemory>
    ensures { IfOk result (λ values. map view values.items ≡ sites_value sites) }
{
    let mut values = Vec::new(alloc);
    for i in 0..sites {
        values.push(site(alloc, i)?)?;
    }
    Ok(values)
}

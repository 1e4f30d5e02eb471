// The path of a plate: OUT/SITE/EDITION-SECTION-PPP-I.tif.
ghost use Rattle.std.specs.Prelude.{◌≡◌, ◌<◌, ◌++◌, codes, length, string_bytes, IfOk};
ghost use Rattle.plan_rows.specs.Paths.{path_of, path_text, plate_name_of, plate_text};
ghost use Rattle.plan_rows.specs.Paths.{site_name as name_of_site, section_name as name_of_section};

use crate::Group;
use plan_json::Plan;
use pr_base::{Ink, NoMemory, PathText};
use std::alloc::{AllocError, Global};

/// Returns the path of a group's plate at a site, below the folder `out`: the names of site and edition, and
/// the plate's name within the edition.
#[tactic(auto, unfolding(crate::specs::Paths::path_of, crate::specs::Paths::plate_name_of))]
pub fn plate_path(
    alloc: Global,
    plan: &Plan,
    out: &str,
    site: usize,
    group: &Group,
    ink: Ink,
) -> Result<PathText, NoMemory>
    requires site { site < length plan.now.sites }
    requires section { group.now.section < length plan.now.sections }
    ensures { IfOk result (λ path. path ≡ path_of plan.now out.now site group.now ink) }
{
    let site = site_name(plan, site);
    let section = section_name(plan, group.section as usize);
    let name = name_of(alloc, section, group.pair, ink.letter())?;
    let text = joined(alloc, out, site, plan.edition.as_str(), name.as_str())?;
    PathText::of(alloc, text.as_str())
}

/// Returns the name of a group's plate within its edition, SECTION-PPP-I: the name of the section, the pair
/// in three digits, and the letter of the ink.
#[tactic(auto, unfolding(crate::specs::Paths::plate_name_of))]
pub fn plate_name(alloc: Global, plan: &Plan, group: &Group, ink: Ink) -> Result<String, AllocError>
    requires section { group.now.section < length plan.now.sections }
    ensures { IfOk result (λ name. string_bytes name ≡ plate_name_of plan.now group.now ink) }
{
    let section = section_name(plan, group.section as usize);
    name_of(alloc, section, group.pair, ink.letter())
}

/// Joins the parts of a path with their separators.
fn joined(
    alloc: Global,
    out: &str,
    site: &str,
    edition: &str,
    name: &str,
) -> Result<String, AllocError>
    ensures { IfOk result (λ text. string_bytes text ≡
        path_text out.now site.now (edition.now ++ codes "-" ++ name.now ++ codes ".tif")) }
{
    format!(in alloc; "{out}/{site}/{edition}-{name}.tif")
}

/// Joins the parts of a plate's name with their separators.
fn name_of(alloc: Global, section: &str, pair: u32, letter: &str) -> Result<String, AllocError>
    ensures { IfOk result (λ text. string_bytes text ≡ plate_text section.now pair letter.now) }
{
    let (hundreds, tens, ones) = (pair / 100 % 10, pair / 10 % 10, pair % 10);
    format!(in alloc; "{section}-{hundreds}{tens}{ones}-{letter}")
}

/// Returns the name of a site.
pub fn site_name(plan: &Plan, site: usize) -> &str
    requires { site < length plan.now.sites }
    ensures { result.now ≡ name_of_site plan.now site }
{
    plan.sites[site].name.as_str()
}

/// Returns the name of a section.
pub fn section_name(plan: &Plan, section: usize) -> &str
    requires { section < length plan.now.sections }
    ensures { result.now ≡ name_of_section plan.now section }
{
    plan.sections[section].name.as_str()
}

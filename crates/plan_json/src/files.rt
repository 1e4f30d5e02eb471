// The files of a plan, each once, in the order in which the layers name them, and the layers with their files
// by index.
ghost use Rattle.std.specs.Prelude.{◌≡◌, ℕ, IfOk, List, OnOk, map};
ghost use Rattle.std.specs.List.{flat_map};
ghost use Rattle.std.specs.Str.{bytes_eq};
ghost use Rattle.indexmap.specs.IndexSet.{insert_all, insert_key};
ghost use Rattle.plan_json.specs.Files as spec;

use crate::named::{NamedLayer, NamedPage};
use indexmap::IndexSet;
use plan_parts::{Page, PlanLayer};
use pr_base::{NoMemory, PathText};
use std::alloc::Global;

/// The files so far, each once.
type Files<'a> = IndexSet<&'a str>;

// Adds a file to the set, at the end if it is new, and returns its index.
fn noted<'a>(files: &mut Files<'a>, file: &'a str) -> Result<usize, NoMemory>
    ensures files { OnOk result
        (spec.texts files.new.keys ≡ insert_key bytes_eq (spec.texts files.old.keys) file.now) }
    ensures index { IfOk result (λ i. i ≡ spec.index_of (spec.texts files.old.keys) file.now) }
{
    let found = files.insert_full(file)?;
    Ok(found.0)
}

fn noted_mask<'a>(
    files: &mut Files<'a>,
    mask: &'a Option<PathText>,
) -> Result<Option<usize>, NoMemory>
    ensures { IfOk result (spec.NotesMask (spec.texts files.old.keys) mask.now (spec.texts files.new.keys)) }
{
    match mask {
        Some(file) => Ok(Some(noted(files, file.as_str())?)),
        None => Ok(None),
    }
}

/// An item of a plan that names its files, and that has them by index once it is placed.
trait Placed {
    /// The type of the placed item.
    type As: Drop;

    // The files that it names, in order.
    ghost names: { Self → List (List ℕ) };

    // The placed item, by the list of files.
    ghost placed_with: { List (List ℕ) → Self → Self.As };

    /// Adds its files to the set, and returns it with their indexes.
    fn placed<'a>(&'a self, alloc: Global, files: &mut Files<'a>) -> Result<Self::As, NoMemory>
        ensures { IfOk result (spec.Places names placed_with
            (spec.texts files.old.keys) self.now (spec.texts files.new.keys)) };
}

impl Placed for NamedLayer {
    type As = PlanLayer;

    ghost names = { spec.named_by };

    ghost placed_with = { spec.layer_of };

    fn placed<'a>(&'a self, _alloc: Global, files: &mut Files<'a>) -> Result<PlanLayer, NoMemory> {
        let file = noted(files, self.file.as_str())?;
        let mask = noted_mask(files, &self.mask)?;
        Ok(PlanLayer {
            line: self.line,
            file,
            x: self.x,
            y: self.y,
            scale: self.scale,
            crop: self.crop,
            mask,
            overprint: self.overprint,
            ink: self.ink,
        })
    }
}

impl Placed for NamedPage {
    type As = Page;

    ghost names = { spec.named_on };

    ghost placed_with = { spec.page_of };

    fn placed<'a>(&'a self, alloc: Global, files: &mut Files<'a>) -> Result<Page, NoMemory> {
        let name = PathText::of(alloc, self.name.as_str())?;
        let layers = placed_all(alloc, files, self.layers.as_slice())?;
        Ok(Page {
            name,
            colour: self.colour,
            spot: self.spot,
            layers,
        })
    }
}

// Places the items in order.
fn placed_all<'a, T: Placed>(
    alloc: Global,
    files: &mut Files<'a>,
    items: &'a [T],
) -> Result<Vec<T::As>, NoMemory>
    ensures { IfOk result (λ v. spec.PlacesAll T.names T.placed_with
        (spec.texts files.old.keys) items.now (spec.texts files.new.keys) v.items) }
{
    let mut all = Vec::new(alloc);
    for item in items {
        let one = item.placed(alloc, files)?;
        all.push(one)?;
    }
    Ok(all)
}

fn copies(alloc: Global, names: &[&str]) -> Result<Vec<PathText>, NoMemory>
    ensures { IfOk result (λ v. v.items ≡ spec.texts names.now) }
{
    let mut all = Vec::new(alloc);
    for name in names {
        let one = PathText::of(alloc, *name)?;
        all.push(one)?;
    }
    Ok(all)
}

/// Returns the pages with their files by index, and the files.
pub(crate) fn pages_and_files(
    alloc: Global,
    pages: &[NamedPage],
) -> Result<(Vec<Page>, Vec<PathText>), NoMemory>
    ensures pages { IfOk result (λ r. r.0.items ≡ spec.pages_of pages.now) }
    ensures files { IfOk result (λ r. r.1.items ≡ spec.files_of pages.now) }
{
    let mut files = IndexSet::new(alloc);
    let placed = placed_all(alloc, &mut files, pages)?;
    let names = copies(alloc, files.as_slice())?;
    Ok((placed, names))
}

// The files of a job, each under its path.
ghost use Rattle.std.specs.Prelude.{◌≡◌, ◌≤◌, [], ◌∷◌, ◌++◌, IfOk, OnOk, map};
ghost use Rattle.std.specs.List.{range_with_len};
ghost use Rattle.job_gen.specs.Images.{files_of, other_entries, page_entry, path_of};
ghost use Rattle.job_gen.specs.Job.{shown};

use crate::images::{contone_image, line_image, mask_image};
use crate::names::{LINE_FILE, MASK_FILE, OTHER_FILE, page_file};
use crate::numbers::page_count;
use pr_base::{NoMemory, PathText};
use std::alloc::Global;

/// Returns the files of job `n`.
pub(crate) fn files(alloc: Global, n: u32) -> Result<Vec<(PathText, Vec<u8>)>, NoMemory>
    ensures { IfOk result (λ files. shown files.items ≡ files_of n) }
{
    let mut files = page_files(alloc, n, page_count(n))?;
    put_other_files(alloc, n, &mut files)?;
    Ok(files)
}

/// Returns the files of the section's pages.
fn page_files(alloc: Global, n: u32, pages: u32) -> Result<Vec<(PathText, Vec<u8>)>, NoMemory>
    requires { pages ≤ 8 }
    ensures { IfOk result (λ files. shown files.items ≡ map (page_entry n) (range_with_len 1 pages)) }
{
    let mut files = Vec::new(alloc);
    for k in 0..pages {
        let name = page_file(alloc, k + 1)?;
        let image = contone_image(alloc, n, k + 1)?;
        put_file(alloc, name.as_str(), image, &mut files)?;
    }
    Ok(files)
}

/// Appends the files of the replacement page, of the linework and of the mask.
fn put_other_files(
    alloc: Global,
    n: u32,
    files: &mut Vec<(PathText, Vec<u8>)>,
) -> Result<(), NoMemory>
    ensures { OnOk result (shown files.new.items ≡ shown files.old.items ++ other_entries n) }
{
    let other = contone_image(alloc, n, 0)?;
    put_file(alloc, OTHER_FILE, other, files)?;
    let line = line_image(alloc, n)?;
    put_file(alloc, LINE_FILE, line, files)?;
    let mask = mask_image(alloc, n)?;
    put_file(alloc, MASK_FILE, mask, files)?;
    Ok(())
}

/// Appends a file of the plan with its path.
fn put_file(
    alloc: Global,
    name: &str,
    bytes: Vec<u8>,
    files: &mut Vec<(PathText, Vec<u8>)>,
) -> Result<(), NoMemory>
    ensures { OnOk result (shown files.new.items
        ≡ shown files.old.items ++ (path_of name.now, bytes.items) ∷ []) }
{
    let path = format!(in alloc; "in/{name}")?;
    let path = PathText::of(alloc, path.as_str())?;
    files.push((path, bytes))?;
    Ok(())
}

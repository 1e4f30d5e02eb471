// The names of pages, files and sites.
ghost use Rattle.std.specs.Prelude.{◌≡◌, IfOk, string_bytes};
ghost use Rattle.job_gen.specs.Plan.{page_file as page_file_of, page_name as page_name_of};
ghost use Rattle.job_gen.specs.Plan.{site_name as site_name_of};

use pr_base::NoMemory;
use std::alloc::Global;

pub(crate) const OTHER_NAME: &str = "z1";

pub(crate) const OTHER_FILE: &str = "z1.tif";

pub(crate) const LINE_FILE: &str = "line.tif";

pub(crate) const MASK_FILE: &str = "mask.tif";

/// Returns the name of page `j`.
pub(crate) fn page_name(alloc: Global, j: u32) -> Result<String, NoMemory>
    ensures { IfOk result (λ name. string_bytes name ≡ page_name_of j) }
{
    Ok(format!(in alloc; "p{j}")?)
}

/// Returns the file name of page `j`.
pub(crate) fn page_file(alloc: Global, j: u32) -> Result<String, NoMemory>
    ensures { IfOk result (λ file. string_bytes file ≡ page_file_of j) }
{
    Ok(format!(in alloc; "p{j}.tif")?)
}

/// Returns the name of site `i`.
pub(crate) fn site_name(alloc: Global, i: u32) -> Result<String, NoMemory>
    ensures { IfOk result (λ name. string_bytes name ≡ site_name_of i) }
{
    Ok(format!(in alloc; "S{i}")?)
}

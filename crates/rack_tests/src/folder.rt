// A folder of the machine for one test, and the paths of two plates in it.
use std::{env, process};

/// Creates a folder for this test only.
pub fn folder_of(rt: &HostRuntime, test: &str) -> Option<String> {
    let temp = env::temp_dir(rt).ok()?;
    let text = temp.as_path().to_str()?;
    format!(in rt.alloc(); "{text}/plateroom-{test}-{}", process::id(rt.process())).ok()
}

/// Returns the paths of two plates of a site.
pub fn paths_in(rt: &HostRuntime, folder: &str) -> Option<(String, String)> {
    let first = format!(in rt.alloc(); "{folder}/OSLO/a.tif").ok()?;
    let second = format!(in rt.alloc(); "{folder}/OSLO/b.tif").ok()?;
    Some((first, second))
}

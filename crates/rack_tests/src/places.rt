// What may occupy the paths of a plate on the machine: links, folders, and another rack's lock.
ghost use Rattle.std.specs.Prelude.{◌≡◌, OnOk};
ghost use Rattle.pr_rack.specs.Rack.{none_begun};

use crate::folder::{folder_of, paths_in};
use crate::machine::HEAD;
use pr_rack::{HostRack, Rack, RackFault};
use std::fs;
use std::os::unix::fs::symlink;

// A plate without rows, closed by a tail of two bytes.
const EMPTY: [u8; 10] = [0x49, 0x49, 0x2A, 0, 8, 0, 0, 0, 0, 7];

// The earlier contents of a file.
const OLD: [u8; 3] = [1, 2, 3];

// Begins a plate and finishes it.
fn build(rack: &mut HostRack<HostRuntime>, path: &str) -> Result<(), RackFault>
    requires { rack.old.begun ≡ none_begun }
    ensures { OnOk result (rack.new.begun ≡ none_begun) }
{
    rack.begin(0, path, &HEAD)?;
    rack.finish(0, &[0, 7], 8)
}

// Builds a plate on a new rack, which is dropped afterwards. Returns its result.
fn built(rt: &HostRuntime, path: &str) -> Result<(), RackFault> {
    let Ok(rt) = rt.clone() else {
        return Err(RackFault::Memory);
    };
    build(&mut HostRack::new(rt), path)
}

// Begins a plate on a new rack and abandons it. Returns its result.
fn begun(rt: &HostRuntime, path: &str) -> Result<(), RackFault> {
    let Ok(rt) = rt.clone() else {
        return Err(RackFault::Memory);
    };
    HostRack::new(rt).begin(0, path, &HEAD)
}

// Whether this path is a regular file, not a link, with these bytes.
fn holds(rt: &HostRuntime, path: &str, bytes: &[u8]) -> bool {
    let is_file = match fs::symlink_metadata(rt, path) {
        Ok(found) => found.is_file(),
        Err(_) => false,
    };
    let is_same = match fs::read(rt, path) {
        Ok(read) => read.as_slice() == bytes,
        Err(_) => false,
    };
    is_file && is_same
}

// While a rack exists, no other rack begins a plate in its folder, even after the first rack's plates are
// finished.
fn is_alone(rt: &HostRuntime, first: &str, second: &str) -> bool {
    let Ok(own) = rt.clone() else {
        return false;
    };
    let mut rack = HostRack::new(own);
    build(&mut rack, first).is_ok()
        && begun(rt, second) == Err(RackFault::Failed)
        && build(&mut rack, second).is_ok()
        && begun(rt, first) == Err(RackFault::Failed)
}

// A link at the path of the plate or of its partial file is replaced, and its target is unchanged.
fn follows_no_link(rt: &HostRuntime, path: &str, link: &str, file: &str) -> bool {
    fs::write(rt, file, &OLD).is_ok()
        && symlink(rt, file, link).is_ok()
        && built(rt, path).is_ok()
        && holds(rt, path, &EMPTY)
        && holds(rt, file, &OLD)
}

// A folder at the path of a plate makes `begin` fail, and so does an empty folder at that of its partial
// file.
fn refuses_folder(rt: &HostRuntime, path: &str, folder: &str) -> bool {
    fs::create_dir(rt, folder).is_ok()
        && begun(rt, path) == Err(RackFault::Failed)
        && fs::remove_dir(rt, folder).is_ok()
        && built(rt, path).is_ok()
}

// A folder created at the path of a plate after it was begun makes `finish` fail.
fn refuses_late_folder(rt: &HostRuntime, path: &str, part: &str) -> bool {
    let Ok(own) = rt.clone() else {
        return false;
    };
    let mut rack = HostRack::new(own);
    rack.begin(0, path, &HEAD).is_ok()
        && fs::remove_file(rt, path).is_ok()
        && fs::create_dir(rt, path).is_ok()
        && rack.finish(0, &[0, 7], 8) == Err(RackFault::Failed)
        && holds(rt, part, &EMPTY)
}

// Returns the index of the first of these that does not hold, if any.
fn first_false(rt: &HostRuntime, first: &str, second: &str, part: &str) -> Option<usize> {
    let told = [
        built(rt, first).is_ok() && holds(rt, first, &EMPTY),
        is_alone(rt, first, second),
        built(rt, second).is_ok(),
        fs::remove_file(rt, first).is_ok() && follows_no_link(rt, first, first, second),
        follows_no_link(rt, first, part, second),
        refuses_folder(rt, first, part),
        fs::remove_file(rt, first).is_ok() && refuses_folder(rt, first, first),
        refuses_late_folder(rt, first, part),
        begun(rt, "/dev/null/a.tif") == Err(RackFault::Failed),
    ];
    told.iter().position(|holds| !*holds)
}

#[test]
fn places_are_kept(rt: HostRuntime) {
    let folder = folder_of(&rt, "places").expect(&rt, "no folder");
    let (first, second) = paths_in(&rt, folder.as_str()).expect(&rt, "no paths");
    let part = format!(in rt.alloc(); "{first}.part").expect(&rt, "no path");
    let failed = first_false(&rt, first.as_str(), second.as_str(), part.as_str());
    fs::remove_dir_all(&rt, folder).expect(&rt, "folder");
    assert!(rt; failed == None);
}

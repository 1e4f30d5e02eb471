// Loading the files of a plan, each tested as soon as it is loaded.
ghost use Rattle.std.specs.Prelude.{◌≡◌, ◌+◌, ◌<◌, ◌≤◌, Some, None, IfOk, IfSome, OnOk, length, sum_by};
ghost use Rattle.plan_json.specs.Plan.{IsPlan};
ghost use Rattle.pr_ports.specs.Shelf.{IsHeldAt, held_at};
ghost use Rattle.press_job.specs.Findings.{HasRecords, HaveLayers};
ghost use Rattle.press_job.specs.Tests.{ArePassed, fault_of_file};
ghost use Rattle.press_job.specs.Told.{TellsShelf};
ghost use Rattle.press_job.specs.Verdict.{AreFirst, IfFile, IfShelf, IsMissing, OfFiles, WasFound};
ghost use Rattle.press_job.specs.Verdict.{limit_behind as limit_after, name_of, named_fault, path_of};
ghost use Rattle.press_job.specs.Verdict.{verdict_before, verdict_on};

use crate::Refusal;
use crate::file_test::test_file;
use crate::files::Files;
use crate::findings::Findings;
use plan_json::Plan;
use pr_base::{FaultKind, FileFault, NoMemory, PathText};
use pr_ports::{LoadFault, Shelf};
use std::alloc::Global;
use std::thread::Threads;
use tif_image::TestFault;

/// The largest size of one file in bytes.
const FILE_LIMIT: u64 = 536_870_912;

/// The largest size of all files of a plan together in bytes.
const ALL_LIMIT: u64 = 3_221_225_472;

/// The largest size of a file, in bytes, after files of `loaded` bytes together.
fn limit_behind(loaded: u64) -> u64
    requires { loaded ≤ 3221225472 }
    ensures limit { result ≡ limit_after loaded }
    ensures within { loaded + result ≤ 3221225472 }
{
    FILE_LIMIT.min(ALL_LIMIT - loaded)
}

/// The name of a file of the plan.
fn name_at(plan: &Plan, file: usize) -> &str
    requires { file < length plan.now.files }
    ensures { result.now ≡ name_of plan.now file }
{
    let files = plan.files();
    files[file].as_str()
}

/// Returns the fault of a file of the plan, with its name.
pub(crate) fn fault_of(
    alloc: Global,
    plan: &Plan,
    file: usize,
    tag: u16,
    kind: FaultKind,
) -> Result<FileFault, NoMemory>
    requires { file < length plan.now.files }
    ensures { IfOk result (λ fault. fault ≡ named_fault plan.now file tag kind) }
{
    Ok(FileFault {
        file: PathText::of(alloc, name_at(plan, file))?,
        tag,
        kind,
    })
}

/// Returns the path of a file of the plan in a folder.
fn file_path(alloc: Global, plan: &Plan, folder: &str, file: usize) -> Result<PathText, NoMemory>
    requires { file < length plan.now.files }
    ensures { IfOk result (λ path. path ≡ path_of plan.now folder.now file) }
{
    let name = name_at(plan, file);
    PathText::of(alloc, format!(in alloc; "{folder}/{name}")?.as_str())
}

/// Loads a file of the plan and tests it for its uses.
fn load_file<T: Threads + Sync, H: Shelf>(
    rt: &T,
    alloc: Global,
    plan: &Plan,
    folder: &str,
    limit: u64,
    file: usize,
    shelf: &mut H,
) -> Result<(Vec<u8>, Findings), Refusal>
    requires { file < length plan.now.files }
    ensures within { IfOk result (λ loaded. length loaded.0.items ≤ limit) }
    ensures bytes { IfOk result (λ loaded. IsHeldAt (H.held shelf.old)
        (path_of plan.now folder.now file) loaded.0.items) }
    ensures passed { IfOk result (λ loaded. fault_of_file plan.now file loaded.0.items ≡ None) }
    ensures records { IfOk result (λ loaded. HasRecords plan.now file loaded.0.items loaded.1) }
    ensures refused { IfFile result (λ fault. IfSome (H.held shelf.old) (λ held.
        verdict_on plan.now folder.now limit file (held_at held (path_of plan.now folder.now file))
        ≡ Some (Refusal.File fault))) }
    ensures found { IfFile result (WasFound plan.now folder.now (H.held shelf.old) limit file) }
    ensures path { IfShelf result (λ path. path ≡ path_of plan.now folder.now file) }
    ensures shelf { TellsShelf H.Shelf plan.now shelf.old shelf.new result }
{
    let path = file_path(alloc, plan, folder, file)?;
    // Made before the load: once the shelf has counted a file as too long, no allocation can hide it.
    let long = fault_of(alloc, plan, file, 0, FaultKind::TooLong)?;
    let bytes = match shelf.load(path.as_str(), limit) {
        Ok(bytes) => bytes,
        Err(LoadFault::Failed) => return Err(Refusal::Shelf(path)),
        Err(LoadFault::TooLong { .. }) => return Err(Refusal::File(long)),
        Err(LoadFault::Memory) => return Err(Refusal::Memory),
    };
    match test_file(rt, alloc, plan, file, bytes.as_slice()) {
        Ok(found) => Ok((bytes, found)),
        Err(TestFault::Memory) => Err(Refusal::Memory),
        Err(TestFault::Failed(fault)) => {
            let fault = fault_of(alloc, plan, file, fault.tag, fault.kind)?;
            Err(Refusal::File(fault))
        }
    }
}

/// Loads all files of a plan in order, each tested before the next one is loaded.
pub(crate) fn load_files<T: Threads + Sync, H: Shelf>(
    rt: &T,
    alloc: Global,
    plan: &Plan,
    folder: &str,
    shelf: &mut H,
) -> Result<Files, Refusal>
    ensures plan { OnOk result (IsPlan plan.now) }
    ensures count { IfOk result (λ files. length files.bytes ≡ length plan.now.files) }
    ensures passed { IfOk result (λ files. ArePassed plan.now files.bytes) }
    ensures found { IfOk result (HaveLayers plan.now) }
    ensures room { IfOk result (λ files. sum_by length files.bytes ≤ 3221225472) }
    ensures first { IfOk result (λ files. IfSome (H.held shelf.old)
        (λ held. AreFirst plan.now folder.now held files.bytes)) }
    ensures sound { IfOk result (λ files. OfFiles (H.held shelf.old)
        (λ held. AreFirst plan.now folder.now held files.bytes)) }
    ensures refused { IfFile result (λ fault. IfSome (H.held shelf.old)
        (λ held. verdict_before plan.now folder.now held (length plan.now.files)
        ≡ Some (Refusal.File fault))) }
    ensures faulty { IfFile result (λ fault. OfFiles (H.held shelf.old)
        (λ held. verdict_before plan.now folder.now held (length plan.now.files)
        ≡ Some (Refusal.File fault))) }
    ensures path { IfShelf result (IsMissing plan.now folder.now (H.held shelf.old)) }
    ensures shelf { TellsShelf H.Shelf plan.now shelf.old shelf.new result }
{
    let count = plan.files().len();
    let mut files = Files::new(alloc);
    let mut loaded = 0;
    for file in 0..count {
        let limit = limit_behind(loaded);
        let (bytes, found) = load_file(rt, alloc, plan, folder, limit, file, shelf)?;
        loaded += bytes.len() as u64;
        files.push(bytes, found)?;
    }
    Ok(files)
}

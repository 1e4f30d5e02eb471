// Classes of the files of two jobs: each file has a number, and files with the same number have the same
// bytes.
ghost use Rattle.std.specs.Prelude.{◌≡◌, ◌++◌, ◌∷◌, [], ℕ, List, IfOk, OnOk, length, map, position};
ghost use Rattle.std.specs.Str.{bytes_eq};
ghost use Rattle.replate.specs.Inputs.{bytes_of};
ghost use Rattle.replate.specs.Classes.{Knows, class_of};

use pr_base::NoMemory;
use std::alloc::Global;
use std::collections::BTreeMap;

/// The length and the bytes of a file, the key that orders files. The length comes first since most files
/// differ in it.
type Whole<'a> = (usize, &'a [u8]);

/// The class of each file of two jobs: the index of the first old file with the same bytes, or the number of
/// old files where none has them.
#[derive(Drop)]
pub(crate) struct Classes {
    pub(crate) before: Vec<usize>,
    pub(crate) after: Vec<usize>,
}

impl Classes {
    /// Returns the classes of the files of an old and a new job.
    pub(crate) fn of<'a>(
        alloc: Global,
        before: &'a [Vec<u8>],
        after: &'a [Vec<u8>],
    ) -> Result<Classes, NoMemory>
        ensures before { IfOk result (λ classes.
            classes.before.items ≡ map (class_of (bytes_of before.now)) (bytes_of before.now)) }
        ensures after { IfOk result (λ classes.
            classes.after.items ≡ map (class_of (bytes_of before.now)) (bytes_of after.now)) }
    {
        let mut known = BTreeMap::new(alloc);
        let old = numbered(alloc, &mut known, before)?;
        let new = found(alloc, &known, before.len(), after)?;
        Ok(Classes {
            before: old,
            after: new,
        })
    }
}

/// Records files, starting from none, and returns their classes.
fn numbered<'a>(
    alloc: Global,
    known: &mut BTreeMap<Whole<'a>, usize>,
    files: &'a [Vec<u8>],
) -> Result<Vec<usize>, NoMemory>
    requires { Knows known.old [] }
    ensures classes { IfOk result (λ classes.
        classes.items ≡ map (class_of (bytes_of files.now)) (bytes_of files.now)) }
    ensures known { OnOk result (Knows known.new (bytes_of files.now)) }
{
    let mut classes = Vec::new(alloc);
    for (index, file) in files.iter().enumerate() {
        let class = noted(known, file.as_slice(), index)?;
        classes.push(class)?;
    }
    Ok(classes)
}

/// Returns the class of the file that follows the known ones, and records it as known.
fn noted<'a>(
    known: &mut BTreeMap<Whole<'a>, usize>,
    file: &'a [u8],
    index: usize,
) -> Result<usize, NoMemory>
    ensures class { (files : List (List ℕ)) → Knows known.old files → length files ≡ index
        → IfOk result (λ class. class ≡ class_of (files ++ file.now ∷ []) file.now) }
    ensures known { (files : List (List ℕ)) → Knows known.old files → length files ≡ index
        → OnOk result (Knows known.new (files ++ file.now ∷ [])) }
{
    match sought(known, file) {
        Some(class) => Ok(class),
        None => {
            let _none = known.insert((file.len(), file), index)?;
            Ok(index)
        }
    }
}

/// Returns the index of the first known file with the same bytes.
fn sought<'a>(known: &BTreeMap<Whole<'a>, usize>, file: &'a [u8]) -> Option<usize>
    ensures { (files : List (List ℕ)) → Knows known.now files → result ≡ position (bytes_eq file.now) files }
{
    known.get(&(file.len(), file)).copied()
}

/// Returns the classes of other files.
fn found<'a>(
    alloc: Global,
    known: &BTreeMap<Whole<'a>, usize>,
    count: usize,
    files: &'a [Vec<u8>],
) -> Result<Vec<usize>, NoMemory>
    ensures { (olds : List (List ℕ)) → Knows known.now olds → length olds ≡ count
        → IfOk result (λ classes. classes.items ≡ map (class_of olds) (bytes_of files.now)) }
{
    let mut classes = Vec::new(alloc);
    for file in files {
        let class = sought(known, file.as_slice()).unwrap_or(count);
        classes.push(class)?;
    }
    Ok(classes)
}

// A shelf in memory, with known contents, that fails at chosen calls.
ghost use Rattle.std.specs.Prelude.{◌≡◌, ◌≤◌, ◌⊎◌, [], List, ℕ, None, Some, Contains, IfOk, IsErrOf, length};
ghost use Rattle.std.specs.Prelude.{false, map, nat_eq};
ghost use Rattle.std.specs.Cmp.Lexicographic.{pointwise};
ghost use Rattle.std.specs.List.{IsDistinct};
ghost use Rattle.std.specs.Option.{option_copied};
ghost use Rattle.pr_base.specs.Count.{Rose};
ghost use Rattle.pr_ports.specs.Mem.{ShelfState, files_of, shelf_after, Misses};
ghost use Rattle.pr_ports.specs.Shelf.{IsHeldAt, IsLongerAt, held_at, missed_after, has_failed, IfTooLong};
ghost use Rattle.pr_ports.specs.Shelf.{is_too_long};

use crate::{LoadFault, Shelf};
use pr_base::{PathText, raised};
use std::alloc::Global;
use std::marker::Model;

/// A shelf in memory. Calls are numbered from 0. A call fails if its number is in `failing`, or if its path
/// isn't held. The call number saturates at 2^64 - 1.
#[derive(Drop)]
pub struct MemShelf {
    alloc: Global,
    files: Vec<(PathText, Vec<u8>)>,
    failing: Vec<u64>,
    calls: u64,
    faults: u64,
    longs: u64,
    missed: Option<PathText>,
}

impl Model for MemShelf {
    ghost Value = { ShelfState };

    ghost view = { λ s. record {
      files = files_of s.files.items;
      failing = s.failing.items;
      calls = s.calls;
      faults = s.faults;
      longs = s.longs;
      missed = s.missed;
    } };
}

impl MemShelf {
    /// A shelf of these files that fails at the calls with the given numbers.
    pub fn new(alloc: Global, files: Vec<(PathText, Vec<u8>)>, failing: Vec<u64>) -> MemShelf
        requires { IsDistinct (pointwise nat_eq) (map (λ file. file.0) (files_of files.items)) }
        ensures { result ≡ record {
          files = files_of files.items;
          failing = failing.items;
          calls = 0;
          faults = 0;
          longs = 0;
          missed = None;
        } }
    {
        MemShelf {
            alloc,
            files,
            failing,
            calls: 0,
            faults: 0,
            longs: 0,
            missed: None,
        }
    }
}

/// Returns the bytes of the file at `path`.
fn find<'a>(files: &'a [(PathText, Vec<u8>)], path: &str) -> Option<&'a [u8]>
    ensures { option_copied result ≡ held_at (files_of files.now) path.now }
{
    for file in files {
        if file.0.as_str() == path {
            return Some(file.1.as_slice());
        }
    }
    None
}

impl MemShelf {
    /// Counts a failure at `path` and returns the error to report; without memory to record the path it
    /// counts nothing and returns `Memory`.
    fn miss(&mut self, path: &str) -> LoadFault
        ensures cases { Misses self.old self.new path.now result }
        ensures faults_stay { self.old.faults ≤ self.new.faults }
    {
        match PathText::of(self.alloc, path) {
            Ok(missed) => {
                self.missed = Some(missed);
                self.faults = raised(self.faults);
                LoadFault::Failed
            }
            Err(_) => LoadFault::Memory,
        }
    }
}

impl Shelf for MemShelf {
    ghost held = { λ s. Some s.files };

    ghost missed = { λ s. Some s.missed };

    ghost faults = { λ s. s.faults };

    ghost longs = { λ s. s.longs };

    fn load(&mut self, path: &str, limit: u64) -> Result<Vec<u8>, LoadFault>
        ensures within { IfOk result (λ bytes. length bytes.items ≤ limit) }
        ensures bytes { IfOk result (λ bytes. IsHeldAt (Some self.old.files) path.now bytes.items) }
        ensures too_long { IfTooLong result (λ told. told ≡ limit) }
        ensures longer { IfTooLong result (λ _. IsLongerAt (Some self.old.files) path.now limit) }
        ensures long_counted { IfTooLong result (λ _. Rose self.old.longs self.new.longs) }
        ensures long_uncounted { is_too_long result ≡ false → self.new.longs ≡ self.old.longs }
        ensures counted { IsErrOf result LoadFault.Failed → Rose self.old.faults self.new.faults }
        ensures uncounted { has_failed result ≡ false → self.new.faults ≡ self.old.faults }
        ensures missed { Some self.new.missed
            ≡ missed_after (has_failed result) path.now (Some self.old.missed) }
        ensures faults_stay { self.old.faults ≤ self.new.faults }
        ensures longs_stay { self.old.longs ≤ self.new.longs }
        ensures held { Some self.new.files ≡ Some self.old.files }

        ensures fails { IsErrOf result LoadFault.Failed
            → Contains self.old.failing self.old.calls ⊎ (held_at self.old.files path.now ≡ None) }
        ensures fails_there { Contains self.old.failing self.old.calls
            ⊎ (held_at self.old.files path.now ≡ None)
            → IsErrOf result LoadFault.Failed ⊎ IsErrOf result LoadFault.Memory }
        ensures after { self.new ≡ shelf_after self.old path.now result }
    {
        let fails = self.failing.contains(&self.calls);
        self.calls = raised(self.calls);
        if fails {
            return Err(self.miss(path));
        }
        let Some(bytes) = find(self.files.as_slice(), path) else {
            return Err(self.miss(path));
        };
        if bytes.len() as u64 > limit {
            self.longs = raised(self.longs);
            return Err(LoadFault::TooLong { limit });
        }
        match bytes.to_vec(self.alloc) {
            Ok(copy) => Ok(copy),
            Err(_) => Err(LoadFault::Memory),
        }
    }
}

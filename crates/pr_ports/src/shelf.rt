// The source of input files.
ghost use Rattle.std.specs.Prelude.{◌≡◌, ◌≤◌, ℕ, List, Option, Bool, false, IfOk, IsErrOf, length};
ghost use Rattle.pr_base.specs.Count.{Rose};
ghost use Rattle.pr_ports.specs.Shelf.{IsComparedAt, IsHeldAt, IsLongerAt, missed_after};
ghost use Rattle.pr_ports.specs.Shelf.{has_failed, is_too_long};
ghost use Rattle.pr_ports.specs.Shelf.{IfTooLong};

use crate::first_difference;
use thiserror::Error;

/// The reason why a file was not loaded.
#[derive(Clone, Copy, Debug, PartialEq, Eq, Error)]
pub enum LoadFault {
    /// The file does not exist, or reading it failed. The shelf has counted the failure.
    #[error("the file could not be read")]
    Failed,
    /// The file has more bytes than the caller allowed.
    #[error("longer than {limit} bytes")]
    TooLong { limit: u64 },
    #[error("out of memory")]
    Memory,
}

/// A store of files, each loaded or compared whole by its path.
///
/// Implementers define what is known about the shelf. `held` is the list of paths and bytes, `missed` the
/// path of the last failed call, if one failed; either may be unknown (`None`). `faults` counts the calls
/// that returned `Failed`, and `longs` those that returned `TooLong`; both saturate at 2^64 - 1.
///
/// Callers learn from a failure that `faults` rose in that call, which they cannot cause themselves. A call
/// that returns anything else leaves `faults` unchanged, and one that does not return `TooLong` leaves
/// `longs` unchanged.
pub trait Shelf {
    /// Each file's path and bytes, where known.
    ghost held: { Self → Option (List (List ℕ × List ℕ)) };

    /// The path of the last call that returned `Failed`, where known.
    ghost missed: { Self → Option (Option (List ℕ)) };

    /// The number of calls that returned `Failed`.
    ghost faults: { Self → ℕ };

    /// The number of calls that returned `TooLong`.
    ghost longs: { Self → ℕ };

    /// Returns the bytes of the file at `path`, at most `limit` of them.
    fn load(&mut self, path: &str, limit: u64) -> Result<Vec<u8>, LoadFault>
        ensures within { IfOk result (λ bytes. length bytes.items ≤ limit) }
        ensures bytes { IfOk result (λ bytes. IsHeldAt (held self.old) path.now bytes.items) }
        ensures too_long { IfTooLong result (λ told. told ≡ limit) }
        ensures longer { IfTooLong result (λ _. IsLongerAt (held self.old) path.now limit) }
        ensures long_counted { IfTooLong result (λ _. Rose (longs self.old) (longs self.new)) }
        ensures long_uncounted { is_too_long result ≡ false → longs self.new ≡ longs self.old }
        ensures counted { IsErrOf result LoadFault.Failed → Rose (faults self.old) (faults self.new) }
        ensures uncounted { has_failed result ≡ false → faults self.new ≡ faults self.old }
        ensures missed { missed self.new ≡ missed_after (has_failed result) path.now (missed self.old) }
        ensures faults_stay { faults self.old ≤ faults self.new }
        ensures longs_stay { longs self.old ≤ longs self.new }
        ensures held { held self.new ≡ held self.old };

    /// Returns the first offset at which the file at `path` differs from `bytes`; `None` if they are equal.
    /// It answers as `load` does where the file cannot be read or has more than `limit` bytes. By default the
    /// file is loaded.
    fn compare(&mut self, path: &str, limit: u64, bytes: &[u8]) -> Result<Option<u64>, LoadFault>
        ensures compared { IfOk result (IsComparedAt (held self.old) path.now limit bytes.now) }
        ensures too_long { IfTooLong result (λ told. told ≡ limit) }
        ensures longer { IfTooLong result (λ _. IsLongerAt (held self.old) path.now limit) }
        ensures long_counted { IfTooLong result (λ _. Rose (longs self.old) (longs self.new)) }
        ensures long_uncounted { is_too_long result ≡ false → longs self.new ≡ longs self.old }
        ensures counted { IsErrOf result LoadFault.Failed → Rose (faults self.old) (faults self.new) }
        ensures uncounted { has_failed result ≡ false → faults self.new ≡ faults self.old }
        ensures missed { missed self.new ≡ missed_after (has_failed result) path.now (missed self.old) }
        ensures faults_stay { faults self.old ≤ faults self.new }
        ensures longs_stay { longs self.old ≤ longs self.new }
        ensures held { held self.new ≡ held self.old }
    {
        match self.load(path, limit) {
            Ok(file) => Ok(first_difference(bytes, &file)),
            Err(fault) => Err(fault),
        }
    }
}

// The destination of text and plates.
ghost use Rattle.std.specs.Prelude.{◌≡◌, ◌≤◌, ℕ, List, Option, OnOk, OnErr, IsErrOf, false, true};
ghost use Rattle.pr_base.specs.Count.{Rose, count_after};
ghost use Rattle.pr_ports.specs.Sink.{Grew, GrewByPrefix, has_failed};

use thiserror::Error;

/// The reason why bytes were not written.
#[derive(Clone, Copy, Debug, PartialEq, Eq, Error)]
pub enum SinkFault {
    /// Writing failed. The sink has counted the failure.
    #[error("the bytes could not be written")]
    Failed,
    #[error("out of memory")]
    Memory,
}

/// A write-only stream of bytes.
///
/// Implementers define `given`, all bytes accepted so far, which may be unknown (`None`), and `faults`, the
/// number of calls that returned `Failed`, which saturates at 2^64 - 1.
///
/// Callers learn that of a refused piece only a prefix was accepted, and that `faults` rose by one in a call
/// that failed, which they cannot cause themselves. Any other call leaves it unchanged.
pub trait Sink {
    /// All bytes accepted so far, where known.
    ghost given: { Self → Option (List ℕ) };

    /// The number of calls that returned `Failed`.
    ghost faults: { Self → ℕ };

    /// Writes all of `bytes`, or returns why it did not.
    fn put(&mut self, bytes: &[u8]) -> Result<(), SinkFault>
        ensures taken { OnOk result (Grew (given self.old) (given self.new) bytes.now) }
        ensures refused { OnErr result (GrewByPrefix (given self.old) (given self.new) bytes.now) }
        ensures counted { IsErrOf result SinkFault.Failed → Rose (faults self.old) (faults self.new) }
        ensures once { has_failed result ≡ true → faults self.new ≡ count_after (faults self.old) }
        ensures uncounted { has_failed result ≡ false → faults self.new ≡ faults self.old }
        ensures faults_stay { faults self.old ≤ faults self.new };
}

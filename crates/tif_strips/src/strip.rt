// One strip of a file: its offset, its stored size, and the size of its samples.
ghost use Rattle.std.specs.Prelude.{◌≡◌, IfSome, OnOk};
ghost use Rattle.std.specs.Option.{option_copied};
ghost use Rattle.std.specs.Result.{result_err};
ghost use Rattle.tif_dir.specs.Directory.{fault_at};

use crate::samples::reach;
use pr_base::{FaultKind, TagFault};
use tif_dir::tag::STRIP_OFFSETS;

/// A strip of a file.
#[derive(Clone, Copy, PartialEq, Eq)]
pub(crate) struct Strip {
    /// The offset of the strip in bytes from the start of the file (StripOffsets).
    pub offset: u32,
    /// The bytes stored in the file (StripByteCounts).
    pub size: u32,
    /// The bytes of samples that the strip needs.
    pub needed: usize,
}

impl Strip {
    ghost use Rattle.tif_strips.specs.Marks.{HasMarks};
    ghost use Rattle.tif_strips.specs.Strip.{bytes_at, fault_of};

    /// Returns the stored bytes of the strip, or `None` if they extend past the end of the file.
    pub(crate) fn stored<'a>(&self, bytes: &'a [u8]) -> Option<&'a [u8]>
        ensures { option_copied result ≡ bytes_at bytes.now self.now }
    {
        let offset = self.offset as usize;
        let size = self.size as usize;
        if bytes.len() < offset + size {
            return None;
        }
        Some(&bytes[offset..offset + size])
    }

    /// Tests that the strip is within the file and has the samples that it needs, and marks where they begin
    /// each `step` bytes.
    pub(crate) fn check(
        &self,
        bytes: &[u8],
        packed: bool,
        step: usize,
        marks: &mut [u32],
    ) -> Result<(), TagFault>
        ensures fault { result_err result ≡ fault_of packed bytes.now self.now }
        ensures marks { OnOk result
            (IfSome (bytes_at bytes.now self.now) (λ stored. HasMarks stored step marks.new)) }
    {
        let Some(stored) = self.stored(bytes) else {
            return Err(fault(FaultKind::StripPlace));
        };
        if !reach(stored, packed, self.needed, step, marks) {
            return Err(fault(FaultKind::Short));
        }
        Ok(())
    }
}

fn fault(kind: FaultKind) -> TagFault
    ensures { result ≡ fault_at STRIP_OFFSETS kind }
{
    TagFault {
        tag: STRIP_OFFSETS,
        kind,
    }
}

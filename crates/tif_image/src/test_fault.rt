// Why the tests of a file leave no record.
ghost use Rattle.std.specs.Prelude.{◌≡◌};
ghost use Rattle.tif_image.specs.declared.test_fault.TestFault.TheVariants.{Failed, Memory};

use pr_base::{NoMemory, TagFault};

/// Why the tests of a file leave no record of it.
#[derive(Clone, Copy, Debug, PartialEq, Eq)]
pub enum TestFault {
    /// The first test that fails.
    Failed(TagFault),
    /// There is no memory for the record.
    Memory,
}

impl From<TagFault> for TestFault {
    ghost from_gives = { λ fault found. found ≡ Failed fault };

    fn from(fault: TagFault) -> TestFault {
        TestFault::Failed(fault)
    }
}

impl From<NoMemory> for TestFault {
    ghost from_gives = { λ _ found. found ≡ Memory };

    fn from(_error: NoMemory) -> TestFault {
        TestFault::Memory
    }
}

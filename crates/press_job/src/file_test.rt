// The tests of a file for all its uses.
ghost use Rattle.std.specs.Prelude.{◌≡◌, ◌↔◌, All, IfOk, IsTrue, OnOk, Some, true};
ghost use Rattle.pr_base.specs.First.{first_some};
ghost use Rattle.tif_image.specs.Found.{IsFound};
ghost use Rattle.tif_image.specs.Tested.{Tells};
ghost use Rattle.press_job.specs.Findings.{HasRecords};
ghost use Rattle.press_job.specs.Tested.{GoesOn, IsTested, PassesIn, fault_at_mention};
ghost use Rattle.press_job.specs.Tested.{has_passed, with_use};
ghost use Rattle.press_job.specs.Tests.{fault_for, fault_of_file, layer_fault, page_fault};

use crate::findings::Findings;
use crate::usage::{layers_on, use_of};
use plan_json::{Page, Plan, PlanLayer};
use std::alloc::Global;
use std::thread::Threads;
use tif_image::{BilevelUse, Found, TestFault, Usage, test_image};

/// A file of a plan, the uses for which it has passed the tests, so that it is tested once for each, and what
/// these tests found.
#[derive(Drop)]
struct FileTest<'a> {
    /// The index of the file in the plan.
    file: usize,
    bytes: &'a [u8],
    contone: bool,
    line: bool,
    mask: bool,
    found: Findings,
}

impl<'a> FileTest<'a> {
    /// Tests the file for a use if it is the one that a layer mentions.
    fn check_mention<T: Threads + Sync>(
        &mut self,
        rt: &T,
        alloc: Global,
        mention: Option<usize>,
        usage: Usage,
    ) -> Result<(), TestFault>
        requires { IsTested self.old }
        ensures first { Tells result (fault_at_mention self.old mention usage) }
        ensures goes_on { OnOk result (GoesOn self.old self.new) }
        ensures passed { OnOk result (mention ≡ Some self.new.file → has_passed self.new usage ≡ true) }
    {
        if !is_mentioned(mention, self.file) {
            return Ok(());
        }
        self.check(rt, alloc, usage)?;
        Ok(())
    }

    /// Tests the file for a use, unless it has already passed.
    fn check<T: Threads + Sync>(
        &mut self,
        rt: &T,
        alloc: Global,
        usage: Usage,
    ) -> Result<(), TestFault>
        requires { IsTested self.old }
        ensures first { Tells result (fault_for usage self.old.bytes.now) }
        ensures goes_on { OnOk result (GoesOn self.old self.new) }
        ensures passed { OnOk result (has_passed self.new usage ≡ true) }
    {
        if self.has_passed(usage) {
            return Ok(());
        }
        let found = test_image(rt, alloc, self.bytes, usage)?;
        self.note(usage, found);
        Ok(())
    }

    /// Whether the file has passed the tests for a use.
    fn has_passed(&self, usage: Usage) -> bool
        ensures { result ≡ has_passed self.now usage }
    {
        match usage {
            Usage::Contone => self.contone,
            Usage::Bilevel(BilevelUse::Line) => self.line,
            Usage::Bilevel(BilevelUse::Mask) => self.mask,
        }
    }

    /// Notes that the file has passed the tests for a use, and keeps what they found.
    fn note(&mut self, usage: Usage, found: Found)
        ensures { self.new ≡ with_use self.old usage found }
    {
        self.found.note(usage, found);
        match usage {
            Usage::Contone => self.contone = true,
            Usage::Bilevel(BilevelUse::Line) => self.line = true,
            Usage::Bilevel(BilevelUse::Mask) => self.mask = true,
        }
    }
}

/// Tests the bytes of the file with this index for each of its uses, in the order in which layers mention
/// them, and returns what was found.
#[tactic(auto, unfolding(crate::specs::Tests::fault_of_file))]
pub(crate) fn test_file<T: Threads + Sync>(
    rt: &T,
    alloc: Global,
    plan: &Plan,
    file: usize,
    bytes: &[u8],
) -> Result<Findings, TestFault>
    ensures first { Tells result (fault_of_file plan.now file bytes.now) }
    ensures found { IfOk result (HasRecords plan.now file bytes.now) }
{
    let mut test = FileTest {
        file,
        bytes,
        contone: false,
        line: false,
        mask: false,
        found: Findings::nothing(alloc),
    };
    test_uses_on_pages(rt, alloc, &mut test, plan.pages.as_slice())?;
    Ok(test.found)
}

/// Tests the file for its uses on these pages.
fn test_uses_on_pages<T: Threads + Sync>(
    rt: &T,
    alloc: Global,
    test: &mut FileTest<'_>,
    pages: &[Page],
) -> Result<(), TestFault>
    requires { IsTested test.old }
    ensures first { Tells result (first_some (page_fault test.old.file test.old.bytes.now) pages.now) }
    ensures goes_on { OnOk result (GoesOn test.old test.new) }
    ensures passed { OnOk result (All (λ page. All (PassesIn test.new) page.layers) pages.now) }
{
    for page in pages {
        test_uses_in_layers(rt, alloc, test, layers_on(page))?;
    }
    Ok(())
}

/// Tests the file for its uses in these layers.
fn test_uses_in_layers<T: Threads + Sync>(
    rt: &T,
    alloc: Global,
    test: &mut FileTest<'_>,
    layers: &[PlanLayer],
) -> Result<(), TestFault>
    requires { IsTested test.old }
    ensures first { Tells result (first_some (layer_fault test.old.file test.old.bytes.now) layers.now) }
    ensures goes_on { OnOk result (GoesOn test.old test.new) }
    ensures passed { OnOk result (All (PassesIn test.new) layers.now) }
{
    for layer in layers {
        test_uses_in_layer(rt, alloc, test, layer)?;
    }
    Ok(())
}

/// Tests the file for its uses in this layer.
fn test_uses_in_layer<T: Threads + Sync>(
    rt: &T,
    alloc: Global,
    test: &mut FileTest<'_>,
    layer: &PlanLayer,
) -> Result<(), TestFault>
    requires { IsTested test.old }
    ensures first { Tells result (layer_fault test.old.file test.old.bytes.now layer.now) }
    ensures goes_on { OnOk result (GoesOn test.old test.new) }
    ensures passed { OnOk result (PassesIn test.new layer.now) }
{
    test.check_mention(rt, alloc, Some(layer.file), use_of(layer))?;
    test.check_mention(rt, alloc, layer.mask, Usage::Bilevel(BilevelUse::Mask))?;
    Ok(())
}

/// Whether a mention is of this file.
fn is_mentioned(mention: Option<usize>, file: usize) -> bool
    ensures { IsTrue result ↔ (mention ≡ Some file) }
{
    mention == Some(file)
}

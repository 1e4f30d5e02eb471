// Whether crops and masks fit their images.
ghost use Rattle.std.specs.Prelude.{◌≡◌, All};
ghost use Rattle.std.specs.Option.{ForSome};
ghost use Rattle.std.specs.Result.{result_err};
ghost use Rattle.pr_base.specs.First.{first_some};
ghost use Rattle.press_job.specs.Findings.{HasFound, HasLayer, HaveLayers};
ghost use Rattle.press_job.specs.Layers.{bytes_at};
ghost use Rattle.press_job.specs.Tests.{crop_outside, fault_of_layers, fit_fault, length_of, mask_unlike};
ghost use Rattle.press_job.specs.Tests.{page_fit_fault, width_of};
ghost use Rattle.tif_image.specs.declared.usage.BilevelUse.TheVariants.{Mask};
ghost use Rattle.tif_image.specs.declared.usage.Usage.TheVariants.{Bilevel};

use crate::files::Files;
use crate::usage::{layers_on, use_of};
use plan_json::{Page, Plan, PlanLayer};
use pr_base::FaultKind;
use tif_dir::tag;
use tif_image::{BilevelUse, Usage};

/// A crop or a mask that does not fit: the index of the file to report, the tag of the side, and the kind.
#[derive(Clone, Copy)]
pub(crate) struct Misfit {
    pub(crate) file: usize,
    pub(crate) tag: u16,
    pub(crate) kind: FaultKind,
}

/// The sides of an image in pixels.
#[derive(Clone, Copy)]
struct Sides {
    width: u32,
    length: u32,
}

/// Tests all layers of a plan, page by page.
#[tactic(auto, unfolding(crate::specs::Tests::fault_of_layers))]
pub(crate) fn test_fit(plan: &Plan, files: &Files) -> Result<(), Misfit>
    requires { HaveLayers plan.now files.now }
    ensures { result_err result ≡ fault_of_layers plan.now files.now.bytes }
{
    test_fit_on_pages(plan.pages.as_slice(), files)
}

fn test_fit_on_pages(pages: &[Page], files: &Files) -> Result<(), Misfit>
    requires { All (λ page. All (HasLayer files.now) page.layers) pages.now }
    ensures { result_err result ≡ first_some (page_fit_fault files.now.bytes) pages.now }
{
    for page in pages {
        test_fit_of_layers(layers_on(page), files)?;
    }
    Ok(())
}

fn test_fit_of_layers(layers: &[PlanLayer], files: &Files) -> Result<(), Misfit>
    requires { All (HasLayer files.now) layers.now }
    ensures { result_err result ≡ first_some (fit_fault files.now.bytes) layers.now }
{
    for layer in layers {
        test_fit_of_layer(layer, files)?;
    }
    Ok(())
}

/// Tests the crop of a layer, and then its mask.
#[tactic(auto, unfolding(crate::specs::Tests::fit_fault))]
fn test_fit_of_layer(layer: &PlanLayer, files: &Files) -> Result<(), Misfit>
    requires { HasLayer files.now layer.now }
    ensures { result_err result ≡ fit_fault files.now.bytes layer.now }
{
    let sides = sides_of(files, layer.file, use_of(layer));
    test_crop(layer.file, sides, layer.crop)?;
    test_mask(sides, files, layer.mask)
}

/// Returns the sides of the image in a file, as the tests for a use found them.
fn sides_of(files: &Files, file: usize, usage: Usage) -> Sides
    requires { HasFound files.now file usage }
    ensures width { result.width ≡ width_of (bytes_at files.now.bytes file) }
    ensures length { result.length ≡ length_of (bytes_at files.now.bytes file) }
{
    let shape = files.found(file, usage).shape();
    Sides {
        width: shape.width,
        length: shape.length,
    }
}

/// Tests that a crop ends within the image, its width first.
fn test_crop(file: usize, sides: Sides, crop: Option<[u32; 4]>) -> Result<(), Misfit>
    ensures { result_err result ≡ crop_outside file sides.width sides.length crop }
{
    let Some(crop) = crop else {
        return Ok(());
    };
    let [x, y, width, height] = crop;
    if (sides.width as u64) < x as u64 + width as u64 {
        return Err(Misfit {
            file,
            tag: tag::IMAGE_WIDTH,
            kind: FaultKind::Crop,
        });
    }
    if (sides.length as u64) < y as u64 + height as u64 {
        return Err(Misfit {
            file,
            tag: tag::IMAGE_LENGTH,
            kind: FaultKind::Crop,
        });
    }
    Ok(())
}

/// Tests that a mask has the sides of the whole image, its width first.
fn test_mask(sides: Sides, files: &Files, mask: Option<usize>) -> Result<(), Misfit>
    requires { ForSome mask (λ file. HasFound files.now file (Bilevel Mask)) }
    ensures { result_err result ≡ mask_unlike files.now.bytes sides.width sides.length mask }
{
    let Some(file) = mask else {
        return Ok(());
    };
    let own = sides_of(files, file, Usage::Bilevel(BilevelUse::Mask));
    if own.width != sides.width {
        return Err(Misfit {
            file,
            tag: tag::IMAGE_WIDTH,
            kind: FaultKind::MaskSize,
        });
    }
    if own.length != sides.length {
        return Err(Misfit {
            file,
            tag: tag::IMAGE_LENGTH,
            kind: FaultKind::MaskSize,
        });
    }
    Ok(())
}

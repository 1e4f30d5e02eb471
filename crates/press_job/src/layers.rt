// The layers of a page with their images. They were tested when the job was prepared and are not tested here.
ghost use Rattle.std.specs.Prelude.{◌≡◌, ◌≤◌, ℕ, None, length, option_map};
ghost use Rattle.std.specs.Option.{ForSome};
ghost use Rattle.page_layers.specs.Layer.{shape_of};
ghost use Rattle.press_job.specs.Findings.{HasFound, HasLayer};
ghost use Rattle.press_job.specs.Layers.{art_in, bilevel_of, bytes_at, crop_of, layer_of, layers_of};
ghost use Rattle.press_job.specs.Layers.{planned_layers};
ghost use Rattle.press_job.specs.Tests.{use_of};
ghost use Rattle.tif_image.specs.declared.usage.Usage.TheVariants as uses;
ghost use Rattle.tif_image.specs.declared.usage.BilevelUse.TheVariants as usages;

use crate::Job;
use crate::files::Files;
use crate::usage::layers_on;
use page_layers::{Art, Crop, Layer, PageRows};
use plan_json::{Plan, PlanLayer};
use tif_image::{Bilevel, BilevelUse, Contone, Usage};

/// Sets `rows` to a page of a job before its first row, with its layers, their images and their masks, the
/// bottom layer first. `page` is an index into the plan's pages. The layers have passed their tests and
/// nothing is allocated, so the call cannot fail.
pub fn put_layers<'j>(job: &'j Job, page: usize, rows: &mut PageRows<'j>)
    requires room { length (planned_layers job.now.plan page) ≤ rows.old.room }
    ensures { rows.new
        ≡ record rows.old { layers = layers_of job.now.plan job.now.files page; next = 0 } }
{
    let files = job.tested_files();
    let planned = planned_on(job.plan(), page);
    rows.clear();
    for layer in planned {
        rows.put(open_layer(files, layer));
    }
}

/// The largest number of layers on a page of a job.
pub fn most_layers(job: &Job) -> usize
    ensures { (page : ℕ) → length (planned_layers job.now.plan page) ≤ result }
{
    let plan = job.plan();
    let mut most = 0;
    for page in &plan.pages {
        most = most.max(page.layers.len());
    }
    most
}

/// Lends the plan's layers of a page.
fn planned_on(plan: &Plan, page: usize) -> &[PlanLayer]
    ensures { result.now ≡ planned_layers plan.now page }
{
    match plan.pages.get(page) {
        Some(page) => layers_on(page),
        None => &[],
    }
}

/// Returns a layer of the plan with its image and its mask.
fn open_layer<'j>(files: &'j Files, layer: &PlanLayer) -> Layer<'j>
    requires { HasLayer files.now layer.now }
    ensures { result ≡ layer_of files.now.bytes layer.now }
{
    let art = open_art(files, layer);
    let crop = shown_part(&art, layer.crop);
    Layer {
        art,
        mask: open_mask(files, layer.mask),
        x: layer.x,
        y: layer.y,
        scale: layer.scale,
        crop,
        overprint: layer.overprint,
    }
}

/// Returns the image of a layer.
fn open_art<'j>(files: &'j Files, layer: &PlanLayer) -> Art<'j>
    requires { HasFound files.now layer.now.file (use_of layer.now) }
    ensures { result ≡ art_in (bytes_at files.now.bytes layer.now.file) layer.now }
{
    if layer.line {
        let image = open_bilevel(files, layer.file, BilevelUse::Line);
        return Art::Line(image, layer.ink);
    }
    let found = files.found(layer.file, Usage::Contone);
    Art::Contone(Contone::of_tested(files.bytes(layer.file), found))
}

/// Returns a file as a bilevel image for a use that it has passed.
fn open_bilevel<'j>(files: &'j Files, file: usize, usage: BilevelUse) -> Bilevel<'j>
    requires { HasFound files.now file (uses.Bilevel usage) }
    ensures { result ≡ bilevel_of usage (bytes_at files.now.bytes file) }
{
    let found = files.found(file, Usage::Bilevel(usage));
    Bilevel::of_tested(files.bytes(file), usage, found)
}

/// Returns the mask of a layer, if it has one.
fn open_mask<'j>(files: &'j Files, mask: Option<usize>) -> Option<Bilevel<'j>>
    requires { ForSome mask (λ file. HasFound files.now file (uses.Bilevel usages.Mask)) }
    ensures { result ≡ option_map (λ file. bilevel_of usages.Mask (bytes_at files.now.bytes file)) mask }
{
    match mask {
        Some(file) => Some(open_bilevel(files, file, BilevelUse::Mask)),
        None => None,
    }
}

/// Returns the part of an image that is shown: the crop, or the whole image.
fn shown_part(art: &Art<'_>, crop: Option<[u32; 4]>) -> Crop
    ensures { result ≡ crop_of (shape_of art.now) crop }
{
    let Some(crop) = crop else {
        return whole_image(art);
    };
    let [x, y, width, height] = crop;
    Crop {
        x,
        y,
        width,
        height,
    }
}

fn whole_image(art: &Art<'_>) -> Crop
    ensures { result ≡ crop_of (shape_of art.now) None }
{
    let (width, height) = match art {
        Art::Contone(image) => (image.width(), image.length()),
        Art::Line(image, _) => (image.width(), image.length()),
    };
    Crop {
        x: 0,
        y: 0,
        width,
        height,
    }
}

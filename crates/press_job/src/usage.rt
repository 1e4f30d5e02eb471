// The uses of files by the layers of a page.
ghost use Rattle.std.specs.Prelude.{◌≡◌};
ghost use Rattle.press_job.specs.Tests.{use_of};

use plan_json::{Page, PlanLayer};
use tif_image::{BilevelUse, Usage};

/// The use of a layer's image.
pub(crate) fn use_of(layer: &PlanLayer) -> Usage
    ensures { result ≡ use_of layer.now }
{
    if layer.line {
        Usage::Bilevel(BilevelUse::Line)
    } else {
        Usage::Contone
    }
}

/// Lends the layers of a page.
pub(crate) fn layers_on(page: &Page) -> &[PlanLayer]
    ensures { result.now ≡ page.now.layers }
{
    page.layers.as_slice()
}

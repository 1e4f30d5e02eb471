// Reading the layers of a page.
ghost use Rattle.std.specs.Prelude.{◌≡◌, codes};
ghost use Rattle.plan_parts.specs.Gives.{Gives};
ghost use Rattle.plan_parts.specs.Node.{inside};
ghost use Rattle.plan_parts.specs.Reading.{required};
ghost use Rattle.plan_json.specs.Pages as spec;

use crate::four_numbers::FourNumbers;
use crate::named::{NamedLayer, Painting, Placing};
use plan_parts::{FileName, ItemReader, ListOf, Node, Number, Object, PlanFault, Reader};
use pr_base::PathText;

// Reads one of two texts: returns whether it is the second.
#[derive(Drop)]
struct Either<'x>(&'x str, &'x str);

impl Reader for Either<'_> {
    type Out = bool;

    ghost reads = { λ texts. spec.either texts.0.now texts.1.now };

    #[tactic(auto, unfolding(crate::specs::Pages::either))]
    fn read(&self, node: Node<'_>) -> Result<bool, PlanFault> {
        let s = node.text()?;
        if s == self.0 {
            return Ok(false);
        }
        if s == self.1 {
            return Ok(true);
        }
        Err(PlanFault::Range(node.path()?))
    }
}

// Reads the part of an image that is shown.
#[derive(Drop)]
struct CropReader;

impl Reader for CropReader {
    type Out = Option<[u32; 4]>;

    ghost reads = { λ _. spec.crop };

    #[tactic(auto, unfolding(crate::specs::Pages::crop))]
    fn read(&self, node: Node<'_>) -> Result<Option<[u32; 4]>, PlanFault> {
        Ok(Some(FourNumbers { low: 1 }.read(node)?))
    }
}

// Reads the file of a mask.
#[derive(Drop)]
struct MaskReader;

impl Reader for MaskReader {
    type Out = Option<PathText>;

    ghost reads = { λ _. spec.mask };

    #[tactic(auto, unfolding(crate::specs::Pages::mask))]
    fn read(&self, node: Node<'_>) -> Result<Option<PathText>, PlanFault> {
        Ok(Some(FileName.read(node)?))
    }
}

// Reads the values C, M, Y, K and, in a plan with a spot ink, optionally S.
#[derive(Drop)]
struct InkReader {
    spot: bool,
}

impl Reader for InkReader {
    type Out = [u8; 5];

    ghost reads = { λ ink. spec.ink ink.spot };

    #[tactic(auto, unfolding(crate::specs::Pages::ink))]
    fn read(&self, node: Node<'_>) -> Result<[u8; 5], PlanFault> {
        let byte = Number(0, 255);
        let items = node.items(4, if self.spot { 5 } else { 4 })?;
        let c = items.required(0, &byte)? as u8;
        let m = items.required(1, &byte)? as u8;
        let y = items.required(2, &byte)? as u8;
        let k = items.required(3, &byte)? as u8;
        let s = items.optional(4, 0, &byte)? as u8;
        Ok([c, m, y, k, s])
    }
}

// Reads whether an image is linework.
#[tactic(auto, unfolding(crate::specs::Pages::kind))]
fn line_in(o: &Object<'_>) -> Result<bool, PlanFault>
    ensures { Gives (λ b. b) result (inside o.now (required (codes "kind") spec.kind)) }
{
    o.required("kind", &Either("contone", "line"))
}

// Reads the position of an image on the page, and its scale.
#[tactic(auto, unfolding(crate::specs::Pages::placing))]
fn placing_in(o: &Object<'_>) -> Result<Placing, PlanFault>
    ensures { Gives (λ p. p) result (inside o.now spec.placing) }
{
    let x = o.optional("x", 0, &Number(0, 65535))? as u32;
    let y = o.optional("y", 0, &Number(0, 65535))? as u32;
    let scale = o.optional("scale", 1, &Number(1, 64))? as u32;
    Ok(Placing { x, y, scale })
}

// Reads the part of an image that is painted, and how.
#[tactic(auto, unfolding(crate::specs::Pages::painting, crate::specs::Pages::paint))]
fn painting_in(o: &Object<'_>, spot: bool) -> Result<Painting, PlanFault>
    ensures { Gives (λ p. p) result (inside o.now (spec.painting spot)) }
{
    let crop = o.optional("crop", None, &CropReader)?;
    let mask = o.optional("mask", None, &MaskReader)?;
    let overprint = o.optional("paint", false, &Either("knockout", "overprint"))?;
    let ink = o.optional("ink", [0, 0, 0, 255, 0], &InkReader { spot })?;
    Ok(Painting {
        crop,
        mask,
        overprint,
        ink,
    })
}

// Reads the keys of a layer.
fn layer_of(o: &Object<'_>, spot: bool) -> Result<NamedLayer, PlanFault>
    ensures { Gives (λ l. l) result (inside o.now (spec.layer_in spot)) }
{
    let line = line_in(o)?;
    let file = o.required("file", &FileName)?;
    let at = placing_in(o)?;
    let Painting {
        crop,
        mask,
        overprint,
        ink,
    } = painting_in(o, spot)?;
    Ok(NamedLayer {
        line,
        file,
        x: at.x,
        y: at.y,
        scale: at.scale,
        crop,
        mask,
        overprint,
        ink,
    })
}

// Reads a layer of a page.
#[derive(Drop)]
struct LayerReader {
    spot: bool,
}

impl ItemReader for LayerReader {
    type Item = NamedLayer;

    ghost reads = { λ layer _. spec.layer layer.spot };

    #[tactic(auto, unfolding(crate::specs::Pages::layer))]
    fn read_item(&self, _earlier: &[NamedLayer], node: Node<'_>) -> Result<NamedLayer, PlanFault> {
        let o = node.object(&[
            "kind", "file", "x", "y", "scale", "crop", "mask", "paint", "ink",
        ])?;
        layer_of(&o, self.spot)
    }
}

/// Reads the layers of a page: the value of its key `layers`.
#[tactic(auto, unfolding(crate::specs::Pages::layers))]
pub(crate) fn layers_in(o: &Object<'_>, spot: bool) -> Result<Vec<NamedLayer>, PlanFault>
    ensures { Gives (λ v. v.items) result (inside o.now (required (codes "layers") (spec.layers spot))) }
{
    o.required("layers", &ListOf(0, 32, LayerReader { spot }))
}

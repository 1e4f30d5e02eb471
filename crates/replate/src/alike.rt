// Comparison of two plans for a plate: their settings, the screening of an ink, and pages.
ghost use Rattle.std.specs.Prelude.{◌≡◌, ◌<◌, ◌↔◌, IsTrue, All, length, map};
ghost use Rattle.plan_json.specs.Plan.{IsPlan};
ghost use Rattle.plan_parts.specs.Parts.{IsScreen};
ghost use Rattle.replate.specs.Recipe.{screen_recipe, settings_of};
ghost use Rattle.replate.specs.Classes.{HasClasses, classed, classed_page};

use crate::classes::Classes;
use plan_json::{Mark, Page, Plan, PlanCurve, PlanLayer, Screen};

/// Returns whether two plans have the same edition.
pub(crate) fn same_edition(before: &Plan, after: &Plan) -> bool
    ensures same { IsTrue result ↔ (before.now.edition ≡ after.now.edition) }
    ensures before { IsPlan before.now }
    ensures after { IsPlan after.now }
{
    before.edition == after.edition
}

/// Returns whether two plans have the same settings.
pub(crate) fn same_settings(before: &Plan, after: &Plan) -> bool
    ensures { IsTrue result ↔ (settings_of before.now ≡ settings_of after.now) }
{
    before.dpi == after.dpi
        && before.page_width == after.page_width
        && before.page_height == after.page_height
        && before.margins == after.margins
        && before.gutter == after.gutter
        && before.limit == after.limit
        && same_marks(&before.marks, &after.marks)
        && same_curves(&before.curves, &after.curves)
}

fn same_marks(before: &[Mark], after: &[Mark]) -> bool
    ensures { IsTrue result ↔ (before.now ≡ after.now) }
{
    if before.len() != after.len() {
        return false;
    }
    for (i, old) in before.iter().enumerate() {
        if !same_mark(old, &after[i]) {
            return false;
        }
    }
    true
}

fn same_mark(old: &Mark, new: &Mark) -> bool
    ensures { IsTrue result ↔ (old.now ≡ new.now) }
{
    same_flags(&old.inks, &new.inks)
        && old.x == new.x
        && old.y == new.y
        && old.w == new.w
        && old.h == new.h
}

fn same_flags(before: &[bool], after: &[bool]) -> bool
    ensures { IsTrue result ↔ (before.now ≡ after.now) }
{
    before == after
}

fn same_curves(before: &[PlanCurve], after: &[PlanCurve]) -> bool
    ensures { IsTrue result ↔ (before.now ≡ after.now) }
{
    if before.len() != after.len() {
        return false;
    }
    for (i, old) in before.iter().enumerate() {
        let new = &after[i];
        if !same_points(&old.points, &new.points) {
            return false;
        }
    }
    true
}

fn same_points(before: &[(u8, u8)], after: &[(u8, u8)]) -> bool
    ensures { IsTrue result ↔ (before.now ≡ after.now) }
{
    before == after
}

/// Returns whether two plans screen an ink alike, each by its own screen.
pub(crate) fn same_screen(before: &Plan, old: Screen, after: &Plan, new: Screen) -> bool
    requires old { IsScreen (length before.now.tiles) old }
    requires new { IsScreen (length after.now.tiles) new }
    ensures { IsTrue result ↔ (screen_recipe before.now old ≡ screen_recipe after.now new) }
{
    match (old, new) {
        (Screen::Bayer(a), Screen::Bayer(b)) => a == b,
        (Screen::Diffuse, Screen::Diffuse) => true,
        (Screen::Own(a), Screen::Own(b)) => same_tile(before, a, after, b),
        _ => false,
    }
}

/// Returns whether a tile of each plan has the same sides and numbers.
fn same_tile(before: &Plan, old: usize, after: &Plan, new: usize) -> bool
    requires old { old < length before.now.tiles }
    requires new { new < length after.now.tiles }
    ensures { IsTrue result ↔
        (screen_recipe before.now (Screen.Own old) ≡ screen_recipe after.now (Screen.Own new)) }
{
    let (a, b) = (&before.tiles[old], &after.tiles[new]);
    a.width == b.width && a.height == b.height && a.at == b.at
}

/// Returns whether two pages are the same, by the classes of their files.
pub(crate) fn same_page(old: &Page, new: &Page, classes: &Classes) -> bool
    requires old { All (HasClasses classes.now.before.items) old.now.layers }
    requires new { All (HasClasses classes.now.after.items) new.now.layers }
    ensures { IsTrue result ↔
        (classed_page classes.now.before.items old.now ≡ classed_page classes.now.after.items new.now) }
{
    old.colour == new.colour
        && old.spot == new.spot
        && same_layers(&old.layers, &new.layers, classes)
}

fn same_layers(old: &[PlanLayer], new: &[PlanLayer], classes: &Classes) -> bool
    requires old { All (HasClasses classes.now.before.items) old.now }
    requires new { All (HasClasses classes.now.after.items) new.now }
    ensures { IsTrue result ↔
        (map (classed classes.now.before.items) old.now ≡ map (classed classes.now.after.items) new.now) }
{
    if old.len() != new.len() {
        return false;
    }
    for (i, layer) in old.iter().enumerate() {
        if !same_layer(layer, &new[i], classes) {
            return false;
        }
    }
    true
}

fn same_layer(old: &PlanLayer, new: &PlanLayer, classes: &Classes) -> bool
    requires old { HasClasses classes.now.before.items old.now }
    requires new { HasClasses classes.now.after.items new.now }
    ensures { IsTrue result ↔
        (classed classes.now.before.items old.now ≡ classed classes.now.after.items new.now) }
{
    in_class(old, &classes.before) == in_class(new, &classes.after)
}

/// Returns a layer with the classes of its files in place of their indexes.
fn in_class(layer: &PlanLayer, classes: &[usize]) -> PlanLayer
    requires { HasClasses classes.now layer.now }
    ensures { result ≡ classed classes.now layer.now }
{
    let mask = match layer.mask {
        Some(mask) => Some(classes[mask]),
        None => None,
    };
    PlanLayer {
        file: classes[layer.file],
        mask,
        ..*layer
    }
}

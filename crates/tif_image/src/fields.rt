// Tests of an image's fields. Each reads its field first, and returns a fault with the field's tag.
ghost use Rattle.std.specs.Prelude.{◌≡◌, ◌<◌, ◌≤◌, ◌==◌, IfOk, IsTrue};
ghost use Rattle.std.specs.List.{enumerate_from, find, list_all, list_any};
ghost use Rattle.std.specs.Option.{option_copied};
ghost use Rattle.tif_dir.specs.Directory.{field_of, is_present};
ghost use Rattle.tif_dir.specs.Table.{is_listed};
ghost use Rattle.tif_image.specs.Fields.{bits_each, full_dot, full_dot_range, is_full_dot, no_tiles};
ghost use Rattle.tif_image.specs.Fields.{number_among, number_within};

use pr_base::{FaultKind, TagFault};
use tif_dir::tag::{
    BITS_PER_SAMPLE, DOT_RANGE, TILE_BYTE_COUNTS, TILE_LENGTH, TILE_OFFSETS, TILE_WIDTH,
};
use tif_dir::{Dir, Field};

/// The tags of the tile fields, in order (TIFF 6.0, Section 15).
const TILE_TAGS: [u16; 4] = [TILE_WIDTH, TILE_LENGTH, TILE_OFFSETS, TILE_BYTE_COUNTS];

/// Returns the value of a field, which must be between `least` and `most`.
#[tactic(auto, unfolding(crate::specs::Fields::number_within))]
pub fn number_within(
    dir: &Dir<'_>,
    tag: u16,
    least: u32,
    most: u32,
    kind: FaultKind,
) -> Result<u32, TagFault>
    requires { IsTrue (is_listed tag) }
    ensures number { result ≡ number_within dir.now tag least most kind }
    ensures within { IfOk result (λ number. (least ≤ number) × (number ≤ most)) }
{
    let number = dir.number(tag, 0, 1)?;
    if number < least || most < number {
        return Err(TagFault { tag, kind });
    }
    Ok(number)
}

/// Returns the value of a field, which must be one of `accepted`.
#[tactic(auto, unfolding(crate::specs::Fields::number_among))]
pub fn number_among(
    dir: &Dir<'_>,
    tag: u16,
    accepted: &[u32],
    kind: FaultKind,
) -> Result<u32, TagFault>
    requires { IsTrue (is_listed tag) }
    ensures number { result ≡ number_among dir.now tag accepted.now kind }
    ensures among { IfOk result (λ number. IsTrue (list_any (λ n. n == number) accepted.now)) }
{
    let number = dir.number(tag, 0, 1)?;
    if !accepted.contains(&number) {
        return Err(TagFault { tag, kind });
    }
    Ok(number)
}

/// Tests that the image is not tiled (Section 15).
#[tactic(auto, unfolding(crate::specs::Fields::no_tiles))]
pub fn no_tiles(dir: &Dir<'_>) -> Result<(), TagFault>
    ensures { result ≡ no_tiles dir.now }
{
    match first_present(dir, &TILE_TAGS) {
        Some(tag) => Err(TagFault {
            tag: *tag,
            kind: FaultKind::Tiled,
        }),
        None => Ok(()),
    }
}

// Returns the first of these tags that is in the directory.
fn first_present<'a>(dir: &Dir<'_>, tags: &'a [u16]) -> Option<&'a u16>
    ensures { option_copied result ≡ find (λ tag. is_present (field_of dir.now tag)) tags.now }
{
    tags.iter().find(|tag| is_present(dir, **tag))
}

// Returns whether the directory has an entry with `tag`.
fn is_present(dir: &Dir<'_>, tag: u16) -> bool
    ensures { result ≡ is_present (field_of dir.now tag) }
{
    match dir.field(tag) {
        Ok(None) => false,
        _ => true,
    }
}

/// Tests that each sample has `depth` bits.
pub fn bits_each(dir: &Dir<'_>, samples: u32, depth: u32) -> Result<(), TagFault>
    requires { 0 < samples }
    ensures { result ≡ bits_each dir.now samples depth }
{
    for i in 0..samples {
        if dir.number(BITS_PER_SAMPLE, i, samples)? != depth {
            return Err(TagFault {
                tag: BITS_PER_SAMPLE,
                kind: FaultKind::Bits,
            });
        }
    }
    Ok(())
}

/// Tests that a dot range, if the file has one, maps 0 to no ink and 255 to full ink.
#[tactic(auto, unfolding(crate::specs::Fields::full_dot_range))]
pub fn full_dot_range(dir: &Dir<'_>) -> Result<(), TagFault>
    ensures { result ≡ full_dot_range dir.now }
{
    let Some(field) = dir.field(DOT_RANGE)? else {
        return Ok(());
    };
    let kind = match field.count() {
        0 | 1 => FaultKind::FieldCount,
        2 | 8 if are_full_dots(&field) => return Ok(()),
        _ => FaultKind::DotRange,
    };
    Err(TagFault {
        tag: DOT_RANGE,
        kind,
    })
}

// Returns whether the values alternate between 0 and 255, starting with 0.
fn are_full_dots(field: &Field<'_>) -> bool
    ensures { result ≡ list_all is_full_dot (enumerate_from 0 field.now) }
{
    for i in 0..field.count() {
        if field.at(i) != full_dot(i) {
            return false;
        }
    }
    true
}

// Returns value `i` of the full range.
fn full_dot(i: u32) -> u32
    ensures { result ≡ full_dot i }
{
    if i % 2 == 0 { 0 } else { 255 }
}

// Which pixels of a layer show: those that its image marks and its mask lets through.
ghost use Rattle.std.specs.Prelude.{◌≡◌, ℕ, ◌+◌, ◌-◌, ◌*◌, ◌/◌, ◌<◌, ◌≤◌, if◌then◌else◌, IsTrue, length};
ghost use Rattle.std.specs.Prelude.{false, option_map, replicate};
ghost use Rattle.std.specs.Option.{ForSome};
ghost use Rattle.page_layers.specs.Layer.{IsLayer, admits, shows_through};
ghost use Rattle.page_layers.specs.Reader.{Holds, IsOf, mask_cursor};
ghost use Rattle.page_layers.specs.Rows.{IsAdmitted, IsMarked, bare_art, held, is_bare};

use crate::layer::{Art, Crop, Layer};
use crate::marks::mark_pixels;
use crate::row_reader::RowReader;
use crate::stretch::stretch;
use tif_image::Bilevel;

/// Returns whether every pixel of the layer shows: it is contone and has no mask.
pub(crate) fn is_bare(layer: &Layer<'_>) -> bool
    ensures { result ≡ is_bare layer.now }
{
    match (&layer.mask, &layer.art) {
        (None, Art::Contone(_)) => true,
        _ => false,
    }
}

/// Sets `admitted` to 255 for each covered column of the page that shows in the row read last, and to 0 for
/// the others.
pub(crate) fn admit_row(
    layer: &Layer<'_>,
    image: &RowReader<'_>,
    mask: &Option<RowReader<'_>>,
    image_room: &[u8],
    mask_room: &[u8],
    marks: &mut [u8],
    admitted: &mut [u8],
)
    requires image { IsOf layer.now.art image.now }
    requires mask { mask.now ≡ option_map (mask_cursor image.now.next) layer.now.mask }
    requires image_part { bare_art layer.now.art ≡ false → Holds image.now layer.now.crop image_room.now }
    requires mask_part { ForSome mask.now (λ reader. Holds reader layer.now.crop mask_room.now) }
    requires layer { IsLayer layer.now }
    requires columns { length marks.old ≤ layer.now.crop.width }
    requires enough { (n : ℕ) → layer.now.scale * n < length admitted.old → n < length marks.old }
    requires small { length admitted.old ≤ 65535 }
    requires bare { IsTrue (is_bare layer.now) → admitted.old ≡ replicate (length admitted.old) 255 }
    ensures bare { IsTrue (is_bare layer.now) → admitted.new ≡ admitted.old }
    ensures admitted { IsAdmitted layer.now (image.now.next - 1) (length admitted.old) admitted.new }
{
    if is_bare(layer) {
        return;
    }
    if layer.scale == 1 {
        mark_row(layer, image, mask, image_room, mask_room, admitted);
        return;
    }
    mark_row(layer, image, mask, image_room, mask_room, marks);
    stretch(marks, 1, layer.scale as usize, admitted);
}

// Sets `marks` to 255 for the columns of the image that show, from the crop's first on, and to 0 for the
// others.
fn mark_row(
    layer: &Layer<'_>,
    image: &RowReader<'_>,
    mask: &Option<RowReader<'_>>,
    image_room: &[u8],
    mask_room: &[u8],
    marks: &mut [u8],
)
    requires image { IsOf layer.now.art image.now }
    requires mask { mask.now ≡ option_map (mask_cursor image.now.next) layer.now.mask }
    requires image_part { bare_art layer.now.art ≡ false → Holds image.now layer.now.crop image_room.now }
    requires mask_part { ForSome mask.now (λ reader. Holds reader layer.now.crop mask_room.now) }
    requires columns { length marks.old ≤ layer.now.crop.width }
    ensures { IsMarked
        (λ n. admits layer.now (layer.now.crop.x + n) (image.now.next - 1))
        (λ n. 255) (length marks.old) marks.new }
{
    let crop = layer.crop;
    match &layer.art {
        Art::Contone(_) => mark_mask(
            true,
            &layer.mask,
            mask,
            mask_room,
            crop,
            image.read(),
            marks,
        ),
        Art::Line(line, _) => {
            mark_pixels(true, line, image, crop, image_room, marks);
            mark_mask(
                false,
                &layer.mask,
                mask,
                mask_room,
                crop,
                image.read(),
                marks,
            );
        }
    }
}

// Sets `marks` to 0 for the columns of the image that the mask hides, from the crop's first on. The others
// become 255 if the marks are `fresh`, or else they keep their value.
fn mark_mask(
    fresh: bool,
    mask: &Option<Bilevel<'_>>,
    reader: &Option<RowReader<'_>>,
    room: &[u8],
    crop: Crop,
    next: u32,
    marks: &mut [u8],
)
    requires reader { reader.now ≡ option_map (mask_cursor next) mask.now }
    requires part { ForSome reader.now (λ reader. Holds reader crop room.now) }
    requires within { length marks.old ≤ crop.width }
    ensures { IsMarked
        (λ n. shows_through mask.now (crop.x + n) (next - 1))
        (held fresh marks.old) (length marks.old) marks.new }
{
    match (mask, reader) {
        (Some(mask), Some(reader)) => mark_pixels(fresh, mask, reader, crop, room, marks),
        _ => {
            if fresh {
                marks.fill(255);
            }
        }
    }
}

// The rows of a mask, if a layer has one.
ghost use Rattle.std.specs.Prelude.{◌≡◌, ◌+◌, ◌<◌, ◌≤◌, length, option_map};
ghost use Rattle.std.specs.Option.{ForSome};
ghost use Rattle.tif_strips.specs.Strips.{row_length};
ghost use Rattle.page_layers.specs.Reader.{Holds, at_row, mask_cursor};

use crate::layer::Crop;
use crate::row_reader::RowReader;
use tif_image::Bilevel;

/// Opens a reader before the first row of the mask, if there is one.
pub(crate) fn open_mask<'a>(mask: &Option<Bilevel<'a>>) -> Option<RowReader<'a>>
    ensures { result ≡ option_map (mask_cursor 0) mask.now }
{
    match mask {
        Some(mask) => Some(RowReader::new(mask.rows())),
        None => None,
    }
}

/// Advances to a row of the mask, if there is one, and reads a crop's columns of it into the front of a
/// buffer.
pub(crate) fn reach_mask(mask: &mut Option<RowReader<'_>>, row: u32, crop: Crop, room: &mut [u8])
    requires small { row < 65535 }
    requires within { ForSome mask.old (λ reader. (reader.next ≤ row) × (row < reader.shape.length)) }
    requires columns { ForSome mask.old (λ reader. crop.x + crop.width ≤ reader.shape.width) }
    requires long { ForSome mask.old (λ reader. row_length reader.shape ≤ length room.old) }
    ensures mask { mask.new ≡ option_map (at_row (row + 1)) mask.old }
    ensures part { ForSome mask.new (λ reader. Holds reader crop room.new) }
    ensures room { length room.new ≡ length room.old }
{
    if let Some(reader) = mask {
        reader.reach(row, crop, room);
    }
}

/// Restarts before the first row of the mask, if there is one.
pub(crate) fn restart_mask<'a>(reader: &mut Option<RowReader<'a>>, mask: &Option<Bilevel<'a>>)
    requires { option_map (at_row 0) reader.old ≡ option_map (mask_cursor 0) mask.now }
    ensures { reader.new ≡ option_map (at_row 0) reader.old }
{
    if let (Some(reader), Some(mask)) = (reader, mask) {
        reader.restart(mask.rows());
    }
}

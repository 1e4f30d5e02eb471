// Buffers for one row of a plate, from the pixels of the image to the packed bits.
ghost use Rattle.std.specs.Prelude.{◌≡◌, ◌+◌, ◌*◌, ◌<◌, ◌≤◌, ◌++◌, ℕ, IfOk, length, drop, take};
ghost use Rattle.pr_base.specs.Row.{row_size};
ghost use Rattle.scr_tile.specs.Tile.{threshold_at};
ghost use Rattle.scr_tile.specs.AnyTile.{threshold_of};
ghost use Rattle.tif_packbits.specs.Packbits.{packing};
ghost use Rattle.tif_plate.specs.Plate.{IsSide};
ghost use Rattle.tif_strips.specs.Strips.{row_length};
ghost use Rattle.cmd_one.specs.One.{black_row};
ghost use Rattle.cmd_one.specs.Room.{FitsRow};

use crate::black::screen_black;
use pr_base::{NoMemory, row_bytes};
use scr_tile::AnyTile;
use std::alloc::Global;
use tif_packbits::{pack_bound, pack_row};
use tif_strips::RowCursor;

/// The pixels of a row, their black samples, the bits of the plate's row, and the packed row.
#[derive(Drop)]
pub(crate) struct RowRoom {
    pixels: Vec<u8>,
    black: Vec<u8>,
    bits: Vec<u8>,
    pub(crate) packed: Vec<u8>,
}

/// Allocates the buffers for rows of `width` pixels.
pub(crate) fn row_room(alloc: Global, width: u32) -> Result<RowRoom, NoMemory>
    requires { IsSide width }
    ensures { IfOk result (FitsRow width) }
{
    Ok(RowRoom {
        pixels: vec![in alloc; 0; 4 * width as usize]?,
        black: vec![in alloc; 0; width as usize]?,
        bits: vec![in alloc; 0; row_bytes(width)]?,
        packed: vec![in alloc; 0; pack_bound(row_bytes(width))]?,
    })
}

/// Screens and packs the black samples of the next row of an image, which is row `y`. Returns how many bytes
/// of `packed` the packed row takes.
pub(crate) fn pack_next(
    rows: &mut RowCursor<'_>,
    y: u32,
    tile: &AnyTile,
    room: &mut RowRoom,
) -> usize
    requires tile { (x y : ℕ) → threshold_of tile.now x y ≡ threshold_at 4 x y }
    requires row { row_length rows.old.shape ≡ 4 * rows.old.shape.width }
    requires place { y ≡ rows.old.next }
    requires some { rows.old.next < rows.old.shape.length }
    requires room { FitsRow rows.old.shape.width room.old }
    ensures rows { rows.new ≡ record rows.old { next = rows.old.next + 1 } }
    ensures room { FitsRow rows.old.shape.width room.new }
    ensures within { result ≤ length room.new.packed.items }
    ensures packed { take result room.new.packed.items ≡ packing (black_row rows.old.shape rows.old.bytes y) }
{
    rows.next_row(&mut room.pixels);
    screen_black(tile, y, &room.pixels, &mut room.black, &mut room.bits);
    pack_row(&room.bits, &mut room.packed)
}

// Makes and prints the black plate of one image.
ghost use Rattle.std.specs.Prelude.{◌≡◌, ◌*◌, [], ℕ, IfOk, OnOk};
ghost use Rattle.scr_tile.specs.Tile.{threshold_at};
ghost use Rattle.scr_tile.specs.AnyTile.{threshold_of};
ghost use Rattle.plate_bytes.specs.Made.{so_far};
ghost use Rattle.tif_strips.specs.Strips.{row_length};
ghost use Rattle.cmd_one.specs.One.{black_plate, black_rows};
ghost use Rattle.cmd_one.specs.OneFile.{PlateWrites, Printed};
ghost use Rattle.cmd_one.specs.Room.{FitsRow};
ghost use Rattle.cmd_base.specs.Seen.{sink_seen};

use crate::room::{RowRoom, pack_next, row_room};
use plate_bytes::PlateBytes;
use pr_base::{NoMemory, TagFault};
use pr_ports::{Sink, SinkFault};
use scr_tile::AnyTile;
use std::alloc::Global;
use tif_image::Contone;
use tif_strips::RowCursor;

/// The resolution of the plate of one image, in pixels per inch.
const DPI: u32 = 1200;

/// The side of its Bayer tile, in pixels.
const SIDE: u8 = 4;

/// Why a plate was not printed completely: a `Stop` whose refusal does not name its file yet.
pub(crate) enum PlateFault {
    /// The image was refused before anything was printed.
    Refused(TagFault),
    Memory,
    /// The sink failed.
    Printing,
}

/// Checks an image and prints its black plate. Prints nothing of an image that is refused, and nothing before
/// the whole plate is made.
pub(crate) fn print_plate<S: Sink>(
    alloc: Global,
    bytes: &[u8],
    out: &mut S,
) -> Result<(), PlateFault>
    ensures printed { Printed bytes.now (sink_seen S.Sink out.old out.new) result }
    ensures writes { PlateWrites (sink_seen S.Sink out.old out.new) result }
{
    let image = match Contone::check(bytes) {
        Ok(image) => image,
        Err(fault) => return Err(PlateFault::Refused(fault)),
    };
    let Ok(plate) = make_plate(alloc, &image) else {
        return Err(PlateFault::Memory);
    };
    match out.put(plate.bytes()) {
        Ok(()) => Ok(()),
        Err(SinkFault::Failed) => Err(PlateFault::Printing),
        Err(SinkFault::Memory) => Err(PlateFault::Memory),
    }
}

/// Makes the plate of an image that was checked.
fn make_plate(alloc: Global, image: &Contone<'_>) -> Result<PlateBytes, NoMemory>
    ensures { IfOk result (λ plate. plate.bytes ≡ black_plate image.now.shape image.now.bytes) }
{
    let mut room = row_room(alloc, image.width())?;
    let Some(tile) = AnyTile::bayer(SIDE) else {
        unreachable!()
    };
    let mut plate = PlateBytes::new(alloc, image.width(), image.length(), DPI)?;
    push_rows(image.rows(), &tile, &mut room, &mut plate)?;
    plate.finish()?;
    Ok(plate)
}

/// Screens and packs all rows of an image into its plate.
fn push_rows(
    mut rows: RowCursor<'_>,
    tile: &AnyTile,
    room: &mut RowRoom,
    plate: &mut PlateBytes,
) -> Result<(), NoMemory>
    requires tile { (x y : ℕ) → threshold_of tile.now x y ≡ threshold_at 4 x y }
    requires top { rows.next ≡ 0 }
    requires row { row_length rows.shape ≡ 4 * rows.shape.width }
    requires room { FitsRow rows.shape.width room.old }
    requires plate { plate.old ≡ so_far rows.shape.width rows.shape.length 1200 [] }
    ensures { OnOk result (plate.new ≡ so_far rows.entry.shape.width rows.entry.shape.length 1200
        (black_rows rows.entry.shape rows.entry.bytes)) }
{
    for y in 0..rows.left() {
        let len = pack_next(&mut rows, y, tile, room);
        plate.push(&room.packed[..len])?;
    }
    Ok(())
}

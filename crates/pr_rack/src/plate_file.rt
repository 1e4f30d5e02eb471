// The bytes written to the file of a plate: its head, its rows, its tail, and the offset of its directory.
ghost use Rattle.std.specs.Prelude.{◌≡◌, ◌≤◌, IfSome, length};
ghost use Rattle.std.specs.Bool.{OnTrue};
ghost use Rattle.std.specs.Io.Buffered.{writer_contents};
ghost use Rattle.std.specs.Io.KnownBytes.{Appends};
ghost use Rattle.tif_packbits.specs.Frame.{IsFrame, packed_in};
ghost use Rattle.pr_base.specs.Count.{count_unless};
ghost use Rattle.pr_rack.specs.Delivery.{IsPlaced};

use byteorder::{ByteOrder, LittleEndian};
use pr_base::Counted;
use ring_lanes::Held;
use std::io::{BufWriter, Seek, Write};
use tif_packbits::framed;

/// The capacity of a plate's write buffer in bytes. A packed row has a few bytes to a few thousand.
pub(crate) const BLOCK: usize = 65_536;

/// The position of the directory's offset in the file of a plate.
const PLACE: u64 = 4;

/// Writes the eight bytes before the rows of a plate, and flushes them. Returns false if the file failed.
pub(crate) fn append_head<W: Write>(file: &mut Counted<W>, head: &[u8]) -> bool
    requires { length head.now ≡ 8 }
    ensures head { OnTrue result
        (Appends (W.contents file.old.stream) (W.contents file.new.stream) head.now) }
    ensures count { file.new.faults ≡ count_unless result file.old.faults }
    ensures faults_stay { file.old.faults ≤ file.new.faults }
{
    file.append(head) && file.flush()
}

/// Appends the packed bytes of a row to its plate. Returns false if the file failed.
pub(crate) fn append_row<W: Write>(file: &mut Counted<W>, held: &Held) -> bool
    requires frame { IsFrame held.now.bytes }
    ensures row { OnTrue result
        (Appends (W.contents file.old.stream) (W.contents file.new.stream) (packed_in held.now.bytes)) }
    ensures count { file.new.faults ≡ count_unless result file.old.faults }
    ensures faults_stay { file.old.faults ≤ file.new.faults }
{
    file.append(framed(held.bytes()))
}

/// Appends the tail of a plate, flushes the buffer and returns the file. Returns `None` if that failed.
pub(crate) fn close_block<W: Write + Drop>(
    mut file: Counted<BufWriter<W>>,
    tail: &[u8],
) -> Option<Counted<W>>
    ensures all { IfSome result
        (λ whole. Appends (writer_contents W.contents file.stream) (W.contents whole.stream) tail.now) }
{
    if !file.append(tail) {
        return None;
    }
    let faults = file.faults();
    match file.into_stream().into_inner() {
        Ok(whole) => Some(Counted::new(whole, faults)),
        Err(_) => None,
    }
}

/// Writes the offset `at` of a plate's directory over bytes 4 to 7 of the file, least significant byte
/// first. Returns false if the file failed.
pub(crate) fn write_offset<F: Write + Seek>(file: &mut Counted<F>, at: u32) -> bool
    ensures place { OnTrue result
        (IsPlaced F.stream_position F.contents file.old.stream file.new.stream at) }
    ensures count { file.new.faults ≡ count_unless result file.old.faults }
    ensures faults_stay { file.old.faults ≤ file.new.faults }
{
    let mut place = [0u8; 4];
    LittleEndian::write_u32(&mut place, at);
    file.go_to(PLACE) && file.append(&place)
}

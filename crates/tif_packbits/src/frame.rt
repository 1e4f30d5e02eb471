// Frames, which hold the packing of a row padded to a fixed length.
//   0  the length of the packing, least significant byte first
//   2  the packing, then zeros
ghost use Rattle.std.specs.Prelude.{◌≡◌, ◌≤◌, length};
ghost use Rattle.tif_packbits.specs.Frame.{frame_size, frame_of, packed_in, framed_row, IsFrame};
ghost use Rattle.tif_packbits.specs.Packbits.{packing};

use crate::bytes;
use crate::pack::{pack_bound, pack_row};
use byteorder::{ByteOrder, LittleEndian};

/// The bytes before the packing.
const HEADER: usize = 2;

/// Returns the bytes in the frame of a row of `n` bytes.
pub fn frame_len(n: usize) -> usize
    requires { n ≤ 8192 }
    ensures { result ≡ frame_size n }
{
    HEADER + pack_bound(n)
}

/// Writes the frame of `row` over all of `into`, packing directly into it.
pub fn frame_row(row: &[u8], into: &mut [u8])
    requires row { length row.now ≤ 8192 }
    requires into { length into.old ≡ frame_size (length row.now) }
    ensures { into.new ≡ frame_of row.now }
{
    let len = pack_row(row, &mut into[HEADER..]);
    LittleEndian::write_u16(into, len as u16);
    bytes::fill(0, &mut into[HEADER + len..]);
}

/// Returns the packed bytes of a frame, which are the packing of its row.
pub fn framed(bytes: &[u8]) -> &[u8]
    requires { IsFrame bytes.now }
    ensures held { result.now ≡ packed_in bytes.now }
    ensures packing { result.now ≡ packing (framed_row bytes.now) }
{
    let len = LittleEndian::read_u16(bytes) as usize;
    let behind = &bytes[HEADER..];
    &behind[..len]
}

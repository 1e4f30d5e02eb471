// PackBits, the byte-wise compression of TIFF 6.0, Section 9, in both directions: an unpacker that produces
// the expansion of packed bytes piece by piece, a cursor over their packets, the packing of a row, and
// frames, whose length depends only on the row's length. Nothing here allocates.
#![tactic(auto)]

mod bytes;
mod frame;
mod laws;
mod pack;
mod packet;
mod packet_cursor;
mod row_front;
mod unpacker;
mod whole_packets;

pub use frame::{frame_len, frame_row, framed};
pub use laws::{frame_tells_its_row, packing_expands_to_its_row, packing_stays_within_bound};
pub use pack::{pack_bound, pack_row};
pub use packet_cursor::PacketCursor;
pub use unpacker::{Short, Unpacker};
pub use whole_packets::WholePackets;

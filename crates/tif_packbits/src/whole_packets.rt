// Packed bytes that begin and end with a packet, as those of a row mostly do.
ghost use Rattle.std.specs.Prelude.{◌≡◌, ◌≤◌, ◌++◌, length, take, drop};
ghost use Rattle.tif_packbits.specs.Packbits.{expansion};
ghost use Rattle.tif_packbits.specs.Packet.{left_of};
ghost use Rattle.tif_packbits.specs.WholePackets.{IsThrough};

use crate::packet::{Packet, first_packet};
use std::marker::Model;

/// Packed bytes that begin and end with a packet, so that they expand to the same wherever they stand. Contracts
/// see their expansion.
#[derive(Drop)]
pub struct WholePackets<'a> {
    pub(crate) packed: &'a [u8],
}

impl<'a> Model for WholePackets<'a> {
    ghost use Rattle.std.specs.Prelude.{List, ℕ};
    ghost use Rattle.tif_packbits.specs.Packbits.{expansion};
    ghost use Rattle.tif_packbits.specs.WholePackets.{IsWhole};

    ghost Value = { List ℕ };

    ghost view = { λ packets. expansion packets.packed.now };

    ghost invariant = { λ packets. IsWhole packets.packed.now };
}

/// Fills `into` with the expansion of packed bytes. Returns the rest of the last packet that was begun, and the
/// bytes after it.
pub(crate) fn fill_from<'a>(packed: &'a [u8], into: &mut [u8]) -> (Packet<'a>, &'a [u8])
    requires { length into.old ≤ length (expansion packed.now) }
    ensures filled { into.new ≡ take (length into.old) (expansion packed.now) }
    ensures left { left_of result.0 ++ expansion result.1.now
        ≡ drop (length into.old) (expansion packed.now) }
    ensures through { IsThrough packed.now (left_of result.0) result.1.now (length into.old) }
{
    let mut packet = Packet::Literal(&[]);
    let mut rest = packed;
    let mut at = 0;
    loop {
        at += packet.give(&mut into[at..]);
        if at == into.len() {
            return (packet, rest);
        }
        (packet, rest) = first_packet(rest);
    }
}

// A position in packed bytes, found by their headers alone, and the offset at which packets begin there.
ghost use Rattle.std.specs.Prelude.{◌≡◌, ◌<◌, ◌≤◌, ◌↔◌, IfSome, IsErr, OnOk, length, drop};
ghost use Rattle.tif_packbits.specs.Packbits.{expansion};

use crate::Short;
use crate::packet::{Packet, first_packet};
use std::marker::Model;

/// Goes over packed bytes (TIFF 6.0, Section 9) without expanding them. Contracts see the packed bytes and
/// what is still to come of their expansion.
#[derive(Drop)]
pub struct PacketCursor<'a> {
    packed: &'a [u8],
    packet: Packet<'a>,
    /// The offset of the packets after this one.
    next: usize,
}

impl<'a> Model for PacketCursor<'a> {
    ghost use Rattle.tif_packbits.specs.PacketCursor.{Packets};

    ghost Value = { Packets };

    ghost use Rattle.std.specs.Prelude.{◌≤◌, length};
    ghost use Rattle.tif_packbits.specs.PacketCursor.{packets_ahead};

    ghost view = { λ c. record { packed = c.packed.now; ahead = packets_ahead c } };

    ghost invariant = { λ c. c.next ≤ length c.packed.now };
}

impl<'a> PacketCursor<'a> {
    /// Starts at the beginning of the expansion of `packed`.
    pub fn new(packed: &'a [u8]) -> PacketCursor<'a>
        ensures { result ≡ record { packed = packed.now; ahead = expansion packed.now } }
    {
        PacketCursor {
            packed,
            packet: Packet::Literal(&[]),
            next: 0,
        }
    }

    /// Skips the next `n` bytes of the expansion, or all if fewer are left.
    pub fn skip(&mut self, n: u64) -> Result<(), Short>
        ensures short { IsErr result ↔ (length self.old.ahead < n) }
        ensures enough { OnOk result (n ≤ length self.old.ahead) }
        ensures left { self.new ≡ record self.old { ahead = drop n self.old.ahead } }
    {
        let mut most = n;
        loop {
            most -= self.packet.pass(most);
            if most == 0 {
                return Ok(());
            }
            let rest = &self.packed[self.next..];
            if rest.is_empty() {
                return Err(Short);
            }
            let (packet, behind) = first_packet(rest);
            self.packet = packet;
            self.next = self.packed.len() - behind.len();
        }
    }

    /// Returns the offset of the packets that expand to what is still to come, or `None` if the packet before
    /// them has not ended.
    pub fn offset(&self) -> Option<usize>
        ensures within { IfSome result (λ at. at ≤ length self.now.packed) }
        ensures begins { IfSome result (λ at. expansion (drop at self.now.packed) ≡ self.now.ahead) }
    {
        if self.packet.is_over() {
            Some(self.next)
        } else {
            None
        }
    }
}

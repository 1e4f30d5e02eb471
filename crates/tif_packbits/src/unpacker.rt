// The expansion of packed bytes, produced piece by piece.
ghost use Rattle.std.specs.Prelude.{◌≡◌, ◌<◌, ◌≤◌, ◌↔◌, List, ℕ, [], ◌∷◌, ◌++◌, length, take, drop};
ghost use Rattle.std.specs.Prelude.{MatchOption, IfNone, IfSome, IsOk, IsErr, IsTrue, OnOk, OnErr, false};
ghost use Rattle.tif_packbits.specs.Packbits.{expansion};

use crate::packet::{Packet, first_packet};
use crate::whole_packets::{WholePackets, fill_from};
use std::marker::Model;
use thiserror::Error;

/// Fewer bytes are left than requested.
#[derive(Clone, Copy, Debug, PartialEq, Eq, Hash, Error)]
#[error("too few bytes are left")]
pub struct Short;

/// Expands packed bytes in order (TIFF 6.0, Section 9). Contracts see the bytes still to come.
#[derive(Drop)]
pub struct Unpacker<'a> {
    packet: Packet<'a>,
    rest: &'a [u8],
}

impl<'a> Model for Unpacker<'a> {
    ghost use Rattle.std.specs.Prelude.{List, ℕ};

    ghost Value = { List ℕ };

    ghost use Rattle.tif_packbits.specs.Unpacker.{bytes_ahead};

    ghost view = { bytes_ahead };
}

impl<'a> Unpacker<'a> {
    /// Starts at the beginning of the expansion of `bytes`.
    pub fn new(bytes: &'a [u8]) -> Unpacker<'a>
        ensures { result ≡ expansion bytes.now }
    {
        Unpacker {
            packet: Packet::Literal(&[]),
            rest: bytes,
        }
    }

    /// Returns the next byte, or `None` at the end of the expansion.
    pub fn byte(&mut self) -> Option<u8>
        ensures next { MatchOption result (self.old ≡ []) (λ byte. self.old ≡ byte ∷ self.new) }
        ensures end { IfNone result (self.new ≡ []) }
    {
        let mut next = [0];
        match self.fill(&mut next) {
            Ok(()) => Some(next[0]),
            Err(Short) => None,
        }
    }

    /// Fills `into` with the next bytes. If fewer are left, writes those to its start and leaves the rest
    /// of it unchanged.
    pub fn fill(&mut self, into: &mut [u8]) -> Result<(), Short>
        ensures short { IsErr result ↔ (length self.old < length into.old) }
        ensures enough { OnOk result (length into.old ≤ length self.old) }
        ensures filled { OnOk result (into.new ≡ take (length into.old) self.old) }
        ensures front { OnErr result (into.new ≡ self.old ++ drop (length self.old) into.old) }
        ensures left { self.new ≡ drop (length into.old) self.old }
    {
        // The loop works on copies, which stay in registers.
        let mut packet = self.packet;
        let mut rest = self.rest;
        let mut at = 0;
        loop {
            at += packet.give(&mut into[at..]);
            if at == into.len() {
                (self.packet, self.rest) = (packet, rest);
                return Ok(());
            }
            if rest.is_empty() {
                (self.packet, self.rest) = (packet, rest);
                return Err(Short);
            }
            (packet, rest) = first_packet(rest);
        }
    }

    /// Fills `into` with the next bytes, and returns the packets that hold them, if these are whole.
    pub fn fill_whole(&mut self, into: &mut [u8]) -> Option<WholePackets<'a>>
        requires { length into.old ≤ length self.old }
        ensures filled { into.new ≡ take (length into.old) self.old }
        ensures left { self.new ≡ drop (length into.old) self.old }
        ensures whole { IfSome result (λ packets. packets ≡ into.new) }
    {
        if !self.packet.is_over() {
            let Ok(()) = self.fill(into) else {
                unreachable!()
            };
            return None;
        }
        let packed = self.rest;
        let (packet, rest) = fill_from(packed, into);
        self.packet = packet;
        self.rest = rest;
        if !packet.is_over() {
            return None;
        }
        Some(WholePackets {
            packed: &packed[..packed.len() - rest.len()],
        })
    }

    /// Returns true only if the bytes of these packets come next. Compares the packed bytes.
    pub fn has_next(&self, packets: &WholePackets<'_>) -> bool
        ensures { IsTrue result → take (length packets.now) self.now ≡ packets.now }
    {
        if !self.packet.is_over() {
            return false;
        }
        self.rest.starts_with(packets.packed)
    }

    /// Skips the bytes of these packets, if their packed bytes come next. Otherwise skips nothing.
    pub fn pass_whole(&mut self, packets: &WholePackets<'_>) -> bool
        ensures passed { IsTrue result → self.old ≡ packets.now ++ self.new }
        ensures kept { result ≡ false → self.new ≡ self.old }
    {
        if !self.packet.is_over() {
            return false;
        }
        match self.rest.strip_prefix(packets.packed) {
            Some(rest) => {
                self.rest = rest;
                true
            }
            None => false,
        }
    }

    /// Skips the next `n` bytes, or all if fewer are left. Reads only packet headers.
    pub fn skip(&mut self, n: u64) -> Result<(), Short>
        ensures short { IsErr result ↔ (length self.old < n) }
        ensures enough { OnOk result (n ≤ length self.old) }
        ensures left { self.new ≡ drop n self.old }
    {
        let mut most = n;
        loop {
            most -= self.packet.pass(most);
            if most == 0 {
                return Ok(());
            }
            if self.rest.is_empty() {
                return Err(Short);
            }
            (self.packet, self.rest) = first_packet(self.rest);
        }
    }
}

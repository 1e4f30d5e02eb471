// One packet: a header byte, then a literal's bytes or the byte to repeat.
ghost use Rattle.std.specs.Prelude.{◌≡◌, ◌-◌, ◌<◌, ◌↔◌, ◌++◌, ◌==◌, IsTrue, List, ℕ, [], length, min, take, drop};
ghost use Rattle.std.specs.List.{prefix_len};
ghost use Rattle.tif_packbits.specs.Packbits.{expansion};
ghost use Rattle.tif_packbits.specs.Packet.{left_of};

use crate::bytes;

/// The header -128, a no-op, as an unsigned byte.
const NOTHING: u8 = 128;

/// As many no-op headers as are compared at once.
const NOTHINGS: [u8; 64] = [NOTHING; 64];

/// The rest of a packet.
#[derive(Clone, Copy)]
pub enum Packet<'a> {
    /// The remaining bytes of a literal.
    Literal(&'a [u8]),
    /// A byte, and how many times it is still to be repeated.
    Repeat(u8, usize),
}

/// Returns the first packet of packed bytes, and the bytes after it. If the packet is a no-op, further
/// no-op headers are skipped too. A truncated packet expands to nothing.
pub fn first_packet(packed: &[u8]) -> (Packet<'_>, &[u8])
    requires { 0 < length packed.now }
    ensures whole { expansion packed.now ≡ left_of result.0 ++ expansion result.1.now }
    ensures shorter { length result.1.now < length packed.now }
    ensures behind { result.1.now ≡ drop (length packed.now - length result.1.now) packed.now }
    ensures alike { 0 < length (expansion packed.now) → (other : List ℕ) →
        expansion (take (length packed.now - length result.1.now) packed.now ++ other)
        ≡ left_of result.0 ++ expansion other }
{
    let header = packed[0];
    let data = &packed[1..];
    if header < NOTHING {
        let len = header as usize + 1;
        if len <= data.len() {
            (Packet::Literal(&data[..len]), &data[len..])
        } else {
            (Packet::Literal(&[]), &[])
        }
    } else if header == NOTHING {
        (Packet::Literal(&[]), past_nothings(data))
    } else {
        match data {
            [byte, rest @ ..] => (Packet::Repeat(*byte, 257 - header as usize), rest),
            [] => (Packet::Literal(&[]), data),
        }
    }
}

/// Skips all no-op headers at the start of packed bytes. A file may hold millions of them.
// Cold, so that the loops over other packets stay small.
#[cold]
fn past_nothings(packed: &[u8]) -> &[u8]
    ensures past { result.now ≡ drop (prefix_len (λ header. header == 128) packed.now) packed.now }
    ensures same { expansion packed.now ≡ expansion result.now }
{
    let mut rest = packed;
    while let [NOTHING, behind @ ..] = rest {
        rest = rest.strip_prefix(&NOTHINGS).unwrap_or(behind);
    }
    rest
}

impl<'a> Packet<'a> {
    /// Writes as many of the packet's remaining bytes as fit in `into`, and returns their number.
    pub fn give(&mut self, into: &mut [u8]) -> usize
        ensures count { result ≡ min (length (left_of self.old)) (length into.old) }
        ensures given { into.new ≡ take result (left_of self.old) ++ drop result into.old }
        ensures left { left_of self.new ≡ drop result (left_of self.old) }
    {
        match *self {
            Packet::Literal(data) => {
                let n = data.len().min(into.len());
                bytes::copy(&data[..n], &mut into[..n]);
                *self = Packet::Literal(&data[n..]);
                n
            }
            Packet::Repeat(byte, count) => {
                let n = count.min(into.len());
                bytes::fill(byte, &mut into[..n]);
                *self = Packet::Repeat(byte, count - n);
                n
            }
        }
    }

    /// Returns whether no byte of the packet remains.
    pub fn is_over(&self) -> bool
        ensures { IsTrue result ↔ (left_of self.now ≡ []) }
    {
        match *self {
            Packet::Literal(data) => data.is_empty(),
            Packet::Repeat(_, count) => count == 0,
        }
    }

    /// Skips the packet's remaining bytes, at most `most` of them, and returns their number.
    pub fn pass(&mut self, most: u64) -> u64
        ensures count { result ≡ min (length (left_of self.old)) most }
        ensures left { left_of self.new ≡ drop result (left_of self.old) }
    {
        match *self {
            Packet::Literal(data) => {
                let n = data.len().min(most as usize);
                *self = Packet::Literal(&data[n..]);
                n as u64
            }
            Packet::Repeat(byte, count) => {
                let n = count.min(most as usize);
                *self = Packet::Repeat(byte, count - n);
                n as u64
            }
        }
    }
}

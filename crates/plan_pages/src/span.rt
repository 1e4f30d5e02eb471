// Setting a run of pixels in a packed row: parts of its first and last byte, and the whole bytes between
// them.
ghost use Rattle.std.specs.Prelude.{◌≡◌, ◌<◌, ◌≤◌, ◌*◌, length};
ghost use Rattle.plan_pages.specs.Span.{AddsBits, in_byte, in_bytes, in_span};

/// Sets the pixels in the range `from..to`, which is not empty.
pub(crate) fn set_span(bits: &mut [u8], from: u32, to: u32)
    requires some { from < to }
    requires room { to ≤ 8 * length bits.old }
    ensures { AddsBits (in_span from to) bits.old bits.new }
{
    let first = (from / 8) as usize;
    let last = ((to - 1) / 8) as usize;
    let front = u8::MAX >> (from % 8);
    let back = u8::MAX << (7 - (to - 1) % 8);
    if first == last {
        set_in_byte(bits, first, front & back);
    } else {
        set_in_byte(bits, first, front);
        set_bytes(bits, first + 1, last);
        set_in_byte(bits, last, back);
    }
}

/// Sets the pixels of `mask` in byte `i`.
fn set_in_byte(bits: &mut [u8], i: usize, mask: u8)
    requires { i < length bits.old }
    ensures { AddsBits (in_byte i mask) bits.old bits.new }
{
    bits[i] |= mask;
}

/// Sets the pixels of the bytes in the range `from..to`.
fn set_bytes(bits: &mut [u8], from: usize, to: usize)
    requires order { from ≤ to }
    requires room { to ≤ length bits.old }
    ensures { AddsBits (in_bytes from to) bits.old bits.new }
{
    for i in from..to {
        bits[i] = u8::MAX;
    }
}

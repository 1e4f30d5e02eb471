// Single pixels of a packed row.
ghost use Rattle.std.specs.Prelude.{◌≡◌, ℕ, ◌*◌, ◌<◌, ◌≢◌, length};
ghost use Rattle.pr_base.specs.Bits.{bit_at, byte_bit};

/// Sets or clears pixel `place` of a row and leaves all others unchanged.
pub fn set_bit(bits: &mut [u8], place: usize, on: bool)
    requires { place < 8 * length bits.old }
    ensures here { bit_at bits.new place ≡ on }
    ensures elsewhere { (k : ℕ) → k ≢ place → bit_at bits.new k ≡ bit_at bits.old k }
{
    bits[place / 8] = with_bit(bits[place / 8], place % 8, on);
}

/// Returns a byte with pixel `x` of its eight set or cleared.
#[inline(always)]
#[tactic(auto, using(crate::proofs::BitLemmas::byte_bits))]
fn with_bit(byte: u8, x: usize, on: bool) -> u8
    requires { x < 8 }
    ensures here { byte_bit result x ≡ on }
    ensures elsewhere { (y : ℕ) → y < 8 → y ≢ x → byte_bit result y ≡ byte_bit byte y }
{
    let mask = 1u8 << (7 - x);
    if on { byte | mask } else { byte & !mask }
}

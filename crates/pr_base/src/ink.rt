// The inks of a separation.
ghost use Rattle.std.specs.Prelude.{◌≡◌, ◌<◌};
ghost use Rattle.pr_base.specs.Ink.{all_inks, letter_of, slot_of};

/// An ink of a plate. The four process inks come first, in the order in which TIFF 6.0, Section 16, stores
/// the samples of a CMYK pixel; the spot ink `S` follows.
#[derive(Clone, Copy, Debug, PartialEq, Eq, PartialOrd, Ord, Hash)]
pub enum Ink {
    C,
    M,
    Y,
    K,
    S,
}

impl Ink {
    /// The five inks, in the order of their slots.
    pub const ALL: [Ink; 5] = [Ink::C, Ink::M, Ink::Y, Ink::K, Ink::S];

    /// Returns the index of the ink in `ALL`.
    pub fn slot(self) -> usize
        ensures slot { result ≡ slot_of self }
        ensures within { result < 5 }
    {
        self as usize
    }

    /// Returns the letter of the ink.
    pub fn letter(self) -> &'static str
        ensures { result.now ≡ letter_of self }
    {
        match self {
            Ink::C => "C",
            Ink::M => "M",
            Ink::Y => "Y",
            Ink::K => "K",
            Ink::S => "S",
        }
    }
}

/// States that `Ink::ALL` lists each ink once, in slot order.
pub fn inks_law()
    ensures all { Ink.ALL ≡ all_inks }
{}

// The sites that print the same two pages on a plate.
ghost use Rattle.std.specs.Prelude.{◌≡◌, ◌<◌};

use pr_base::Ink;

/// A group of sites: those that print the same two pages as one pair of a section.
#[derive(Clone, Copy, PartialEq, Eq)]
pub struct Group {
    /// The index of the section.
    pub section: u32,
    /// The number of the pair, from 1.
    pub pair: u32,
    /// The indexes of the left and the right page.
    pub left: usize,
    pub right: usize,
    /// The sites, as bits: bit i for site i.
    pub sites: u16,
    /// Whether either page prints C, M and Y. If so, the group's process inks are C, M, Y and K, otherwise K
    /// alone.
    pub colour: bool,
    /// Whether either page prints S. If so, S follows the other inks.
    pub spot: bool,
    /// The number of the group's first row.
    pub first: u64,
}

impl Group {
    ghost use Rattle.plan_rows.specs.Inks.{has_ink as prints, has_site as is_of_site, inks_of};

    /// Returns the group's inks in order.
    pub fn inks(&self) -> &'static [Ink]
        ensures { result.now ≡ inks_of self.now }
    {
        match (self.colour, self.spot) {
            (true, true) => &Ink::ALL,
            (true, false) => &Ink::ALL[..4],
            (false, true) => &Ink::ALL[3..],
            (false, false) => &Ink::ALL[3..4],
        }
    }

    /// Returns whether the group's plates print an ink.
    pub fn has_ink(&self, ink: Ink) -> bool
        ensures { result ≡ prints self.now ink }
    {
        match ink {
            Ink::K => true,
            Ink::S => self.spot,
            _ => self.colour,
        }
    }

    /// Returns whether a site belongs to the group.
    pub fn has_site(&self, site: usize) -> bool
        requires { site < 16 }
        ensures { result ≡ is_of_site self.now site }
    {
        self.sites >> site & 1 == 1
    }
}

// The inks that a page prints.

/// The inks that a row of a page is painted in. Black is always among them.
#[derive(Clone, Copy, PartialEq, Eq)]
pub struct PageInks {
    /// Cyan, magenta and yellow are painted.
    pub colour: bool,
    /// The spot ink is painted.
    pub spot: bool,
}

impl PageInks {
    /// All five inks.
    pub const ALL: PageInks = PageInks {
        colour: true,
        spot: true,
    };
}

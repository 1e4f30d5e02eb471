// Where a row was taken.

/// Where a row was taken: from a deck, or from a ring by one of its readers.
#[derive(Clone, Copy, PartialEq, Eq)]
pub enum Source {
    /// A deck, which has one place.
    Deck,
    /// A ring with this many readers and places, by the reader with this number.
    Ring {
        reader: u32,
        readers: u32,
        places: u32,
    },
}

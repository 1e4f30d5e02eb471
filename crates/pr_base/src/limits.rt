// The numbers that bound what each layer holds.

/// The number of inks: the length of `Ink::ALL`. A rack has a slot for each.
pub const INKS: usize = 5;

/// The most sites that a plan may have.
pub const SITES: usize = 16;

// The plate and the y of a row.

/// A row of one of a site's plates: the index of the plate, its slot, and the row's y from the top.
#[derive(Clone, Copy)]
pub(crate) struct PlateRow {
    pub(crate) plate: usize,
    pub(crate) slot: usize,
    pub(crate) y: u32,
}

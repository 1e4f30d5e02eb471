// Pages of one row with one layer, whose image begins at each of its first columns, one after the other in
// the same buffers.
use crate::layers::draw;
use page_layers::{InkRow, Layer, PageRows};
use std::process::Abort;

/// A row of an image that pages show from a column on.
pub trait Columns<'a> {
    /// Returns the layer that shows the row from column `first` on, on a page of this width.
    fn layer(&self, first: u32, width: u32) -> Option<Layer<'a>>;

    /// Returns whether the page of this layer has these inks.
    fn is_shown(&self, room: &InkRow, first: u32, width: u32) -> bool;
}

/// Asserts the pages of this width, from each of 64 columns on.
pub fn assert_columns<'a, R: Abort + AllocGlobal, C: Columns<'a>>(rt: &R, row: &C, width: u32) {
    assert!(rt; width >= 1 && width <= 200);
    let mut page = PageRows::open(rt.alloc(), 1, width, 1).expect(rt, "memory");
    let mut room = InkRow::new(rt.alloc(), width).expect(rt, "memory");
    for first in 0..64 {
        let layer = row.layer(first, width).expect(rt, "no image");
        draw(rt, layer, &mut page, &mut room);
        assert!(rt; row.is_shown(&room, first, width), "column {first}");
    }
}

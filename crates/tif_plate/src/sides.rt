// The sides and the resolution of a plate.

/// The width and the height of a plate in pixels, and its resolution in pixels per inch.
#[derive(Clone, Copy, PartialEq, Eq)]
pub struct Sides {
    pub width: u32,
    pub height: u32,
    pub dpi: u32,
}

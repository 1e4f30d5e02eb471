// Builds TIFF 6.0 files in memory from an image's rows: contone images, linework or masks of a given size,
// byte order, planar configuration, compression and rows per strip. A definition gives every byte of a
// file: header, directory, values, strips.
#![tactic(auto)]

mod directory;
mod field;
mod form;
mod image;
mod room;
mod strips;

pub use form::{Compression, ImageForm, Kind, Planar};
pub use image::make_image;
pub use tif_dir::Order;

// Small image files and plates, worked out byte by byte from TIFF 6.0, which crates of tests share. No
// function aborts; the tests do, where one is out of memory.
#![tactic(auto)]

mod files;
mod plates;

pub use files::{
    FORM, LEAST_FIRST, LINE, MOST_FIRST, PACKED_LINE, PLANES, PLANES_MOST_FIRST, PLATE, SAMPLES,
};
pub use plates::{Sides, changed, plate_of};

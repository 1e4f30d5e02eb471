// The table of the fields that plateroom reads.
ghost use Rattle.std.specs.Prelude.{◌≡◌, IsTrue};
ghost use Rattle.tif_dir.specs.Table.{default_of, is_listed, least_of};

use crate::tag::*;

// One row per field, in tag order: its tag, its default if the file has no such field, and its minimum
// number of values.
macro_rules! fields {
    ($cases:ident $arguments:tt) => {
        $cases! {
            $arguments
            IMAGE_WIDTH none, one;
            IMAGE_LENGTH none, one;
            BITS_PER_SAMPLE 1, samples;
            COMPRESSION 1, one;
            PHOTOMETRIC_INTERPRETATION none, one;
            FILL_ORDER 1, one;
            STRIP_OFFSETS none, strips;
            ORIENTATION 1, one;
            SAMPLES_PER_PIXEL 1, one;
            ROWS_PER_STRIP 4_294_967_295, one;
            STRIP_BYTE_COUNTS none, strips;
            PLANAR_CONFIGURATION 1, one;
            INK_SET 1, one;
            DOT_RANGE dots, two;
        }
    };
}

macro_rules! default_cases {
    (($tag:ident, $i:ident) $($name:ident $default:tt, $least:ident;)*) => {
        match $tag {
            $($name => default_case!($default $i),)*
            _ => None,
        }
    };
}

macro_rules! default_case {
    (none $i:ident) => { None };
    (dots $i:ident) => { Some(if $i % 2 == 0 { 0 } else { 255 }) };
    ($value:literal $i:ident) => { Some($value) };
}

macro_rules! least_cases {
    (($tag:ident, $samples:ident, $strips:ident) $($name:ident $default:tt, $least:ident;)*) => {
        match $tag {
            $($name => least_case!($least $samples $strips),)*
            _ => unreachable!(),
        }
    };
}

macro_rules! least_case {
    (one $samples:ident $strips:ident) => { 1 };
    (two $samples:ident $strips:ident) => { 2 };
    (samples $samples:ident $strips:ident) => { $samples };
    (strips $samples:ident $strips:ident) => { $strips };
}

/// Returns the default for value `i` of an absent field, or `None` if the field has no default.
pub fn default_value(tag: u16, i: u32) -> Option<u32>
    ensures { result ≡ default_of tag i }
{
    fields!(default_cases(tag, i))
}

/// Returns the minimum number of values of a field, given the numbers of samples per pixel and of strips.
pub fn least_count(tag: u16, samples: u32, strips: u32) -> u32
    requires { IsTrue (is_listed tag) }
    ensures { result ≡ least_of tag samples strips }
{
    fields!(least_cases(tag, samples, strips))
}

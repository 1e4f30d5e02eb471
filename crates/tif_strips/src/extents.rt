// Where the strips of an image are in its file, by the fields of the file or as it was kept.
ghost use Rattle.std.specs.Prelude.{◌≡◌, ◌<◌, ◌≤◌};
ghost use Rattle.tif_strips.specs.Extents.{count_in, extent_in};

use tif_dir::Field;

/// Where a strip is in a file.
#[derive(Clone, Copy, PartialEq, Eq)]
pub struct Extent {
    /// The offset of the strip in bytes from the start of the file (StripOffsets).
    pub offset: u32,
    /// The bytes stored in the file (StripByteCounts).
    pub size: u32,
}

/// The extents of all strips.
#[derive(Drop)]
pub(crate) enum Extents<'a> {
    /// The values of StripOffsets and of StripByteCounts.
    Fields(Field<'a>, Field<'a>),
    Kept(&'a [Extent]),
}

impl<'a> Extents<'a> {
    /// Returns the extent of strip `i`.
    pub(crate) fn at(&self, i: u32) -> Extent
        requires { i < count_in self.now }
        ensures { result ≡ extent_in self.now i }
    {
        match self {
            Extents::Fields(offsets, sizes) => Extent {
                offset: offsets.at(i),
                size: sizes.at(i),
            },
            Extents::Kept(extents) => extents[i as usize],
        }
    }

    /// Returns a copy of the extents.
    pub(crate) fn copied(&self) -> Extents<'a>
        ensures count { count_in result ≡ count_in self.now }
        ensures extents { extent_in result ≡ extent_in self.now }
    {
        match self {
            Extents::Fields(offsets, sizes) => { Extents::Fields(offsets.copied(), sizes.copied()) }
            Extents::Kept(extents) => Extents::Kept(*extents),
        }
    }
}

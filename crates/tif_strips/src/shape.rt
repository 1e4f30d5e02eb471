// The shape of an image: what the fields of its directory specify about its rows and strips.
ghost use Rattle.std.specs.Prelude.{◌≡◌, ◌+◌, ◌*◌, ◌≤◌, ◌<◌};
ghost use Rattle.tif_strips.specs.Strips.{IsStriped, needed_length, plane_part_length, plane_place};
ghost use Rattle.tif_strips.specs.Strips.{plane_row_length, planes, strip_count, strip_rows};
ghost use Rattle.tif_strips.specs.Strips.{strips_per_plane};
ghost use Rattle.tif_strips.specs.Marks.{marks_per_strip};

use pr_base::row_bytes;

/// The rows of a strip from one mark to the next.
pub(crate) const MARK_ROWS: u32 = 64;

/// The shape of an image. Width and length are in pixels. A contone image has four 8-bit samples per pixel,
/// a bilevel one has a single 1-bit sample.
#[derive(Clone, Copy, PartialEq, Eq)]
pub struct Shape {
    /// ImageWidth (256).
    pub width: u32,
    /// ImageLength (257).
    pub length: u32,
    /// SamplesPerPixel (277).
    pub samples: u8,
    /// BitsPerSample (258).
    pub bits: u8,
    /// PlanarConfiguration (284): 1 if a pixel's samples are side by side, 2 if each has its own plane.
    pub planar: u8,
    /// Whether Compression (259) is PackBits.
    pub packed: bool,
    /// RowsPerStrip (278).
    pub rows_per_strip: u32,
}

impl Shape {
    // Returns the number of planes.
    #[tactic(auto, unfolding(crate::specs::Strips::planes))]
    pub(crate) fn planes(&self) -> u32
        ensures count { result ≡ planes self.now }
        ensures within { result ≤ 4 }
    {
        if self.samples == 4 && self.planar == 2 {
            4
        } else {
            1
        }
    }

    // Returns the bytes of a row in one plane.
    #[tactic(auto, unfolding(crate::specs::Strips::plane_row_length))]
    pub(crate) fn plane_row_len(&self) -> usize
        requires { IsStriped self.now }
        ensures len { result ≡ plane_row_length self.now }
        ensures within { result ≤ 262140 }
    {
        let width = self.width;
        if self.samples != 4 {
            row_bytes(width)
        } else if self.planar == 2 {
            width as usize
        } else {
            4 * width as usize
        }
    }

    // Returns the byte of a row in one plane that contains column `x`, or the first of its four bytes.
    #[tactic(auto, unfolding(crate::specs::Strips::plane_place))]
    pub(crate) fn plane_place(&self, x: u32) -> usize
        requires { x ≤ 65535 }
        ensures { result ≡ plane_place self.now x }
    {
        if self.samples != 4 {
            x as usize / 8
        } else if self.planar == 2 {
            x as usize
        } else {
            4 * x as usize
        }
    }

    // Returns the number of bytes of a row in one plane that contain `count` columns from `first` on.
    #[tactic(auto, unfolding(crate::specs::Strips::plane_part_length))]
    pub(crate) fn plane_part_len(&self, first: u32, count: u32) -> usize
        requires { count ≤ 65535 }
        ensures { result ≡ plane_part_length self.now first count }
    {
        if self.samples != 4 {
            row_bytes(first % 8 + count)
        } else if self.planar == 2 {
            count as usize
        } else {
            4 * count as usize
        }
    }

    // Returns the number of strips per plane.
    #[tactic(auto, unfolding(crate::specs::Strips::strips_per_plane))]
    pub(crate) fn strips_per_plane(&self) -> u32
        requires { IsStriped self.now }
        ensures count { result ≡ strips_per_plane self.now }
        ensures some { 1 ≤ result }
        ensures within { result ≤ self.now.length }
    {
        self.length.div_ceil(self.rows_per_strip)
    }

    // Returns the number of marks of a strip: of its rows 64, 128 and so on, if it is packed and as long.
    #[tactic(auto, unfolding(crate::specs::Marks::marks_per_strip))]
    pub(crate) fn marks_per_strip(&self) -> usize
        requires { IsStriped self.now }
        ensures marks { result ≡ marks_per_strip self.now }
        ensures within { result ≤ 1023 }
    {
        if !self.packed {
            return 0;
        }
        let rows = self.rows_per_strip.min(self.length);
        ((rows - 1) / MARK_ROWS) as usize
    }

    /// Returns the number of marks that an image has room for: `Strips::check_wide` sets them.
    pub fn mark_count(&self) -> usize
        requires { IsStriped self.now }
        ensures { result ≡ strip_count self.now * marks_per_strip self.now }
    {
        self.strip_count() as usize * self.marks_per_strip()
    }

    // Returns the number of strips in all planes.
    #[tactic(auto, unfolding(crate::specs::Strips::strip_count))]
    pub(crate) fn strip_count(&self) -> u32
        requires { IsStriped self.now }
        ensures count { result ≡ strip_count self.now }
    {
        self.planes() * self.strips_per_plane()
    }

    // Returns the number of strip `i` of a plane among the strips of all planes.
    #[tactic(auto, using(crate::proofs::Shapes::numbers))]
    pub(crate) fn strip_number(&self, plane: u32, i: u32) -> u32
        requires striped { IsStriped self.now }
        requires plane { plane < planes self.now }
        requires within { i < strips_per_plane self.now }
        ensures number { result ≡ plane * strips_per_plane self.now + i }
        ensures within { result < strip_count self.now }
    {
        plane * self.strips_per_plane() + i
    }

    // Returns the number of rows in strip `i` of a plane.
    #[tactic(auto, using(crate::proofs::Shapes::rows_above), unfolding(crate::specs::Strips::strip_rows))]
    pub(crate) fn strip_rows(&self, i: u32) -> u32
        requires rows { IsStriped self.now }
        requires within { i < strips_per_plane self.now }
        ensures rows { result ≡ strip_rows self.now i }
        ensures within { result ≤ 65535 }
    {
        let above = i * self.rows_per_strip;
        self.rows_per_strip.min(self.length - above)
    }

    // Returns the bytes of samples that a strip needs.
    #[tactic(auto, unfolding(crate::specs::Strips::needed_length))]
    pub(crate) fn needed_len(&self, strip: u32) -> usize
        requires { IsStriped self.now }
        ensures { result ≡ needed_length self.now strip }
    {
        let rows = self.strip_rows(strip % self.strips_per_plane());
        rows as usize * self.plane_row_len()
    }
}

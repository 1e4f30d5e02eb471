// The planes of the strip at a cursor, and pixels interleaved from four of them.
ghost use Rattle.std.specs.Prelude.{◌≡◌, ◌≢◌, ℕ, ◌+◌, ◌*◌, ◌<◌, ◌≤◌, IsTrue, [], ◌∷◌, length, map, take, drop};
ghost use Rattle.std.specs.Prelude.{slice_index_or};
ghost use Rattle.tif_strips.specs.Again.{AreFirst, AreLong, AreNext};
ghost use Rattle.tif_strips.specs.Planes.{FitInks, HasPixels, TakeInks};

use crate::last_row::LastRow;
use crate::samples::Samples;

/// The number of pixels interleaved at a time.
const BLOCK: usize = 1024;

/// The samples still to come of a strip in each plane.
#[derive(Drop)]
pub(crate) enum Planes<'a> {
    One(Samples<'a>),
    Four(Inks<'a>),
}

/// One plane per ink (TIFF 6.0, Section 16).
#[derive(Drop)]
pub(crate) struct Inks<'a> {
    pub cyan: Samples<'a>,
    pub magenta: Samples<'a>,
    pub yellow: Samples<'a>,
    pub black: Samples<'a>,
}

impl<'a> Planes<'a> {
    ghost use Rattle.tif_strips.specs.Planes.{HasPixels, aheads_of};

    /// Reads `count` bytes, from byte `from` on, in each plane of the next row, which is `row` bytes long.
    pub(crate) fn part(&mut self, row: usize, from: usize, count: usize, into: &mut [u8])
        requires room { length into.old ≡ length (aheads_of self.old) * count }
        requires within { from + count ≤ row }
        requires enough { (plane : ℕ) → plane < length (aheads_of self.old)
            → row ≤ length (slice_index_or (aheads_of self.old) plane []) }
        ensures one { length (aheads_of self.old) ≡ 1
            → into.new ≡ take count (drop from (slice_index_or (aheads_of self.old) 0 [])) }
        ensures four { length (aheads_of self.old) ≢ 1
            → HasPixels (map (drop from) (aheads_of self.old)) count into.new }
        ensures left { aheads_of self.new ≡ map (drop row) (aheads_of self.old) }
    {
        self.skip(from);
        self.fill(count, into);
        self.skip(row - from - count);
    }

    /// Reads the next row of four planes, which is `row` bytes long, from byte `from` on: as many samples of
    /// each ink as its slice holds. Returns the packets of the inks that are read whole, where they are known.
    pub(crate) fn inks(
        &mut self,
        row: usize,
        from: usize,
        cyan: &mut [u8],
        magenta: &mut [u8],
        yellow: &mut [u8],
        black: &mut [u8],
    ) -> LastRow<'a>
        requires four { length (aheads_of self.old) ≡ 4 }
        requires fits { FitInks row from cyan.old magenta.old yellow.old black.old }
        requires enough { (plane : ℕ) → plane < length (aheads_of self.old)
            → row ≤ length (slice_index_or (aheads_of self.old) plane []) }
        ensures inks { TakeInks (aheads_of self.old) from cyan.old magenta.old yellow.old black.old
            cyan.new magenta.new yellow.new black.new }
        ensures left { aheads_of self.new ≡ map (drop row) (aheads_of self.old) }
        ensures known { AreFirst row (aheads_of self.old) result }
    {
        match self {
            Planes::One(_) => unreachable!(),
            Planes::Four(inks) => inks.part(row, from, cyan, magenta, yellow, black),
        }
    }

    /// Returns true only if the next row is a known one in each ink that is known, which black is, and the
    /// colours if `colour`.
    pub(crate) fn have_next(&self, colour: bool, last: &LastRow<'_>) -> bool
        requires four { length (aheads_of self.now) ≡ 4 }
        ensures { IsTrue result → AreNext colour (aheads_of self.now) last.now }
    {
        match self {
            Planes::One(_) => unreachable!(),
            Planes::Four(inks) => inks.have_next(colour, last),
        }
    }

    /// Skips the next row of four planes, which is `row` bytes long, at once where it equals the known one.
    pub(crate) fn pass(&mut self, row: usize, last: &LastRow<'_>)
        requires four { length (aheads_of self.old) ≡ 4 }
        requires long { AreLong row last.now }
        requires enough { (plane : ℕ) → plane < length (aheads_of self.old)
            → row ≤ length (slice_index_or (aheads_of self.old) plane []) }
        ensures left { aheads_of self.new ≡ map (drop row) (aheads_of self.old) }
    {
        match self {
            Planes::One(_) => unreachable!(),
            Planes::Four(inks) => inks.pass(row, last),
        }
    }

    // Reads the next `count` bytes in each plane.
    fn fill(&mut self, count: usize, into: &mut [u8])
        requires room { length into.old ≡ length (aheads_of self.old) * count }
        requires enough { (plane : ℕ) → plane < length (aheads_of self.old)
            → count ≤ length (slice_index_or (aheads_of self.old) plane []) }
        ensures one { length (aheads_of self.old) ≡ 1
            → into.new ≡ take count (slice_index_or (aheads_of self.old) 0 []) }
        ensures four { length (aheads_of self.old) ≢ 1 → HasPixels (aheads_of self.old) count into.new }
        ensures left { aheads_of self.new ≡ map (drop count) (aheads_of self.old) }
    {
        match self {
            Planes::One(samples) => samples.fill(into),
            Planes::Four(inks) => inks.fill(count, into),
        }
    }

    /// Skips the next `count` bytes in each plane.
    pub(crate) fn skip(&mut self, count: usize)
        requires enough { (plane : ℕ) → plane < length (aheads_of self.old)
            → count ≤ length (slice_index_or (aheads_of self.old) plane []) }
        ensures left { aheads_of self.new ≡ map (drop count) (aheads_of self.old) }
    {
        match self {
            Planes::One(samples) => samples.skip(count),
            Planes::Four(inks) => inks.skip(count),
        }
    }
}

impl<'a> Inks<'a> {
    ghost use Rattle.tif_strips.specs.Planes.{HasPixels, inks_of};

    // Reads the next `width` pixels, block by block.
    fn fill(&mut self, width: usize, into: &mut [u8])
        requires room { length into.old ≡ 4 * width }
        requires enough { (ink : ℕ) → ink < 4 → width ≤ length (slice_index_or (inks_of self.old) ink []) }
        ensures pixels { HasPixels (inks_of self.old) width into.new }
        ensures left { inks_of self.new ≡ map (drop width) (inks_of self.old) }
    {
        let mut c = [0; BLOCK];
        let mut m = [0; BLOCK];
        let mut y = [0; BLOCK];
        let mut k = [0; BLOCK];
        let mut at = 0;
        while at < width {
            let count = BLOCK.min(width - at);
            self.cyan.fill(&mut c[..count]);
            self.magenta.fill(&mut m[..count]);
            self.yellow.fill(&mut y[..count]);
            self.black.fill(&mut k[..count]);
            let pixels = &mut into[4 * at..4 * (at + count)];
            lay_pixels(&c[..count], &m[..count], &y[..count], &k[..count], pixels);
            at += count;
        }
    }

    // Reads the next row, which has `row` pixels, from pixel `from` on: as many samples of each ink as its
    // slice holds.
    fn part(
        &mut self,
        row: usize,
        from: usize,
        cyan: &mut [u8],
        magenta: &mut [u8],
        yellow: &mut [u8],
        black: &mut [u8],
    ) -> LastRow<'a>
        requires fits { FitInks row from cyan.old magenta.old yellow.old black.old }
        requires enough { (ink : ℕ) → ink < 4 → row ≤ length (slice_index_or (inks_of self.old) ink []) }
        ensures inks { TakeInks (inks_of self.old) from cyan.old magenta.old yellow.old black.old
            cyan.new magenta.new yellow.new black.new }
        ensures left { inks_of self.new ≡ map (drop row) (inks_of self.old) }
        ensures known { AreFirst row (inks_of self.old) result }
    {
        LastRow {
            cyan: self.cyan.read(row, from, cyan),
            magenta: self.magenta.read(row, from, magenta),
            yellow: self.yellow.read(row, from, yellow),
            black: self.black.read(row, from, black),
        }
    }

    // Returns true only if the next row is a known one in each ink that is known, which black is, and the
    // colours if `colour`.
    fn have_next(&self, colour: bool, last: &LastRow<'_>) -> bool
        ensures { IsTrue result → AreNext colour (inks_of self.now) last.now }
    {
        if !self.black.has_next(&last.black, true) {
            return false;
        }
        if !self.cyan.has_next(&last.cyan, colour) {
            return false;
        }
        if !self.magenta.has_next(&last.magenta, colour) {
            return false;
        }
        self.yellow.has_next(&last.yellow, colour)
    }

    // Skips the next row, which has `row` pixels, at once where it equals the known one.
    fn pass(&mut self, row: usize, last: &LastRow<'_>)
        requires long { AreLong row last.now }
        requires enough { (ink : ℕ) → ink < 4 → row ≤ length (slice_index_or (inks_of self.old) ink []) }
        ensures left { inks_of self.new ≡ map (drop row) (inks_of self.old) }
    {
        self.cyan.pass(row, &last.cyan);
        self.magenta.pass(row, &last.magenta);
        self.yellow.pass(row, &last.yellow);
        self.black.pass(row, &last.black);
    }

    // Skips the next `width` pixels.
    fn skip(&mut self, width: usize)
        requires enough { (ink : ℕ) → ink < 4 → width ≤ length (slice_index_or (inks_of self.old) ink []) }
        ensures left { inks_of self.new ≡ map (drop width) (inks_of self.old) }
    {
        self.cyan.skip(width);
        self.magenta.skip(width);
        self.yellow.skip(width);
        self.black.skip(width);
    }
}

// Interleaves the samples of four inks.
fn lay_pixels(cyan: &[u8], magenta: &[u8], yellow: &[u8], black: &[u8], into: &mut [u8])
    requires magenta { length magenta.now ≡ length cyan.now }
    requires yellow { length yellow.now ≡ length cyan.now }
    requires black { length black.now ≡ length cyan.now }
    requires room { length into.old ≡ 4 * length cyan.now }
    ensures { HasPixels (cyan.now ∷ magenta.now ∷ yellow.now ∷ black.now ∷ []) (length cyan.now) into.new }
{
    for x in 0..cyan.len() {
        into[4 * x] = cyan[x];
        into[4 * x + 1] = magenta[x];
        into[4 * x + 2] = yellow[x];
        into[4 * x + 3] = black[x];
    }
}

// The position of a cursor in an image.
ghost use Rattle.std.specs.Prelude.{◌≡◌, ◌+◌, ◌<◌, ◌≤◌, IsTrue, false, length, None};
ghost use Rattle.tif_strips.specs.Again.{AreAbove, ComesAgain};
ghost use Rattle.tif_strips.specs.Strips.{IsStriped, image_part, image_row, part_length, row_length};
ghost use Rattle.tif_strips.specs.Strips.{planes, strip_fault};

use crate::last_row::LastRow;
use crate::planes::Planes;
use crate::samples::Samples;
use crate::shape::MARK_ROWS;
use crate::strip_table::StripTable;

/// A position before a row, in the current strip of each plane. Reading in order starts each strip once.
#[derive(Drop)]
pub(crate) struct Place<'a> {
    /// The number of the next row.
    pub next: u32,
    /// The number of strips started in each plane.
    begun: u32,
    /// The number of rows still to come in the last of them.
    rows: u32,
    /// The samples still to come of that strip in each plane.
    planes: Planes<'a>,
}

impl<'a> Place<'a> {
    ghost use Rattle.tif_strips.specs.Place.{IsPlace, TakeParts};
    ghost use Rattle.tif_strips.specs.Planes.{FitInks};

    /// Returns the position before the first row.
    pub(crate) fn top(table: &StripTable<'a>) -> Place<'a>
        requires striped { IsStriped table.now.shape }
        requires passed { strip_fault table.now.shape table.now.bytes ≡ None }
        ensures place { IsPlace table.now result }
        ensures next { result.next ≡ 0 }
    {
        Place {
            next: 0,
            begun: 0,
            rows: 0,
            planes: Planes::One(Samples::Plain(&[])),
        }
    }

    /// Reads the bytes of the next row that contain `count` columns from `first` on.
    pub(crate) fn read(&mut self, table: &StripTable<'a>, first: u32, count: u32, into: &mut [u8])
        requires place { IsPlace table.now self.old }
        requires left { self.old.next < table.now.shape.length }
        requires columns { first + count ≤ table.now.shape.width }
        requires room { length into.old ≡ part_length table.now.shape first count }
        ensures part { into.new ≡ image_part table.now.shape table.now.bytes self.old.next first count }
        ensures long { length (image_row table.now.shape table.now.bytes self.old.next)
            ≡ row_length table.now.shape }
        ensures place { IsPlace table.now self.new }
        ensures next { self.new.next ≡ self.old.next + 1 }
    {
        self.enter(table);
        let shape = table.shape();
        let from = shape.plane_place(first);
        let len = shape.plane_part_len(first, count);
        self.planes.part(shape.plane_row_len(), from, len, into);
        self.rows -= 1;
        self.next += 1;
    }

    /// Reads the inks of the next row, each of which has its own plane: from column `first` on, as many
    /// samples of each ink as its slice holds. Returns the packets of the inks that are read whole, where they
    /// are known.
    pub(crate) fn read_inks(
        &mut self,
        table: &StripTable<'a>,
        first: u32,
        cyan: &mut [u8],
        magenta: &mut [u8],
        yellow: &mut [u8],
        black: &mut [u8],
    ) -> LastRow<'a>
        requires place { IsPlace table.now self.old }
        requires left { self.old.next < table.now.shape.length }
        requires planes { planes table.now.shape ≡ 4 }
        requires columns { FitInks table.now.shape.width first cyan.old magenta.old yellow.old black.old }
        ensures inks { TakeParts table.now self.old.next first cyan.old magenta.old yellow.old black.old
            cyan.new magenta.new yellow.new black.new }
        ensures place { IsPlace table.now self.new }
        ensures next { self.new.next ≡ self.old.next + 1 }
        ensures known { AreAbove table.now (self.old.next + 1) result }
    {
        self.enter(table);
        let row = table.shape().plane_row_len();
        let last = self
            .planes
            .inks(row, first as usize, cyan, magenta, yellow, black);
        self.rows -= 1;
        self.next += 1;
        last
    }

    /// Skips the next row of an image whose inks have their own planes and returns true, if it is known to equal
    /// the row above it: in black, and in the colours if `colour`. Rows of different strips are not compared.
    pub(crate) fn pass_again(
        &mut self,
        table: &StripTable<'a>,
        colour: bool,
        last: &LastRow<'_>,
    ) -> bool
        requires place { IsPlace table.now self.old }
        requires planes { planes table.now.shape ≡ 4 }
        requires known { AreAbove table.now self.old.next last.now }
        ensures again { IsTrue result → ComesAgain table.now.shape table.now.bytes colour self.old.next }
        ensures known { IsTrue result → AreAbove table.now (self.old.next + 1) last.now }
        ensures left { IsTrue result → self.old.next < table.now.shape.length }
        ensures next { IsTrue result → self.new.next ≡ self.old.next + 1 }
        ensures kept { result ≡ false → self.new ≡ self.old }
        ensures place { IsPlace table.now self.new }
    {
        if self.rows == 0 {
            return false;
        }
        if !self.planes.have_next(colour, last) {
            return false;
        }
        self.planes.pass(table.shape().plane_row_len(), last);
        self.rows -= 1;
        self.next += 1;
        true
    }

    /// Skips the next `count` rows. Strips that end among them are not read any further, except a last strip
    /// with fewer than RowsPerStrip rows.
    pub(crate) fn skip(&mut self, table: &StripTable<'a>, count: u32)
        requires place { IsPlace table.now self.old }
        requires left { self.old.next + count ≤ table.now.shape.length }
        ensures place { IsPlace table.now self.new }
        ensures next { self.new.next ≡ self.old.next + count }
    {
        if count < self.rows && !self.leaps(table, count) {
            self.pass(table, count);
        } else {
            self.stand_before(table, self.next + count);
        }
    }

    // Returns whether a mark in each plane leads to the next row but `count`, in the current strip, sooner
    // than going over the rows before it.
    fn leaps(&self, table: &StripTable<'a>, count: u32) -> bool
        requires place { IsPlace table.now self.now }
        requires rows { count < self.now.rows }
    {
        let y = self.next + count;
        let strip_rows = table.shape().rows_per_strip;
        MARK_ROWS <= count && table.is_marked(y / strip_rows, y % strip_rows)
    }

    // Moves to just before row `y`, in the strip that contains it.
    fn stand_before(&mut self, table: &StripTable<'a>, y: u32)
        requires place { IsPlace table.now self.old }
        requires within { y ≤ table.now.shape.length }
        ensures place { IsPlace table.now self.new }
        ensures next { self.new.next ≡ y }
    {
        let shape = table.shape();
        let strip = y / shape.rows_per_strip;
        let above = y % shape.rows_per_strip;
        self.next = y;
        self.rows = 0;
        self.begun = strip;
        if above == 0 {
            return;
        }
        self.begun += 1;
        if y == shape.length {
            return;
        }
        self.planes = table.begin(strip, above);
        self.rows = shape.strip_rows(strip) - above;
    }

    // Skips the next `count` rows of the current strip.
    fn pass(&mut self, table: &StripTable<'a>, count: u32)
        requires place { IsPlace table.now self.old }
        requires rows { (0 < self.old.rows) × (count ≤ self.old.rows) }
        ensures place { IsPlace table.now self.new }
        ensures next { self.new.next ≡ self.old.next + count }
    {
        let len = count as usize * table.shape().plane_row_len();
        self.planes.skip(len);
        self.rows -= count;
        self.next += count;
    }

    // Starts the next strip if no row of the current one is left.
    fn enter(&mut self, table: &StripTable<'a>)
        requires place { IsPlace table.now self.old }
        requires left { self.old.next < table.now.shape.length }
        ensures place { IsPlace table.now self.new }
        ensures rows { 0 < self.new.rows }
        ensures strip { self.old.rows ≡ 0 → self.new.begun ≡ self.old.begun + 1 }
        ensures next { self.new.next ≡ self.old.next }
    {
        if self.rows == 0 {
            self.planes = table.begin(self.begun, 0);
            self.rows = table.shape().strip_rows(self.begun);
            self.begun += 1;
        }
    }
}

// The rows of an image in order.
use crate::last_row::LastRow;
use crate::place::Place;
use crate::strip_table::StripTable;
use pr_base::row_bytes;
use std::marker::Model;

/// A cursor over the rows of an image. Contracts see the image's shape, the bytes of its file and the
/// number of the next row.
#[derive(Drop)]
pub struct RowCursor<'a> {
    table: StripTable<'a>,
    place: Place<'a>,
    /// The row before the next one, where it is known.
    last: LastRow<'a>,
}

impl<'a> Model for RowCursor<'a> {
    ghost use Rattle.std.specs.Prelude.{◌≤◌};
    ghost use Rattle.tif_strips.specs.Strips.{Cursor};

    ghost Value = { Cursor };

    ghost use Rattle.tif_strips.specs.Again.{AreAbove};
    ghost use Rattle.tif_strips.specs.Place.{IsPlace};

    ghost view = { λ c. record { shape = c.table.shape; bytes = c.table.bytes; next = c.place.next } };

    ghost invariant = { λ c. IsPlace c.table c.place × AreAbove c.table c.place.next c.last };
}

impl<'a> RowCursor<'a> {
    ghost use Rattle.std.specs.Prelude.{◌≡◌, ◌+◌, ◌-◌, ◌<◌, ◌≤◌, ◌↔◌, IsTrue, false, length, None};
    ghost use Rattle.tif_strips.specs.Again.{ComesAgain};
    ghost use Rattle.tif_strips.specs.Strips.{IsStriped, image_part, image_row, ink_part, part_length};
    ghost use Rattle.tif_strips.specs.Strips.{planes, row_length, strip_fault};

    /// Starts before the first row.
    pub(crate) fn new(table: StripTable<'a>) -> RowCursor<'a>
        requires striped { IsStriped table.shape }
        requires passed { strip_fault table.shape table.bytes ≡ None }
        ensures { result ≡ record { shape = table.entry.shape; bytes = table.entry.bytes; next = 0 } }
    {
        let place = Place::top(&table);
        RowCursor {
            table,
            place,
            last: LastRow::none(),
        }
    }

    /// Returns the number of rows still to come.
    pub fn left(&self) -> u32
        ensures { result ≡ self.now.shape.length - self.now.next }
    {
        self.table.shape().length - self.place.next
    }

    /// Reads the next row: with four samples cyan, magenta, yellow and black for each pixel in turn, with
    /// one sample as stored.
    pub fn next_row(&mut self, into: &mut [u8])
        requires left { self.old.next < self.old.shape.length }
        requires room { length into.old ≡ row_length self.old.shape }
        ensures row { into.new ≡ image_row self.old.shape self.old.bytes self.old.next }
        ensures next { self.new ≡ record self.old { next = self.old.next + 1 } }
    {
        let width = self.table.shape().width;
        self.place.read(&self.table, 0, width, into);
        self.last = LastRow::none();
    }

    /// Returns the number of bytes in a row that contain `count` columns from `first` on: four per pixel
    /// with four samples, otherwise every byte that holds a bit of them.
    pub fn part_len(&self, first: u32, count: u32) -> usize
        requires { first + count ≤ self.now.shape.width }
        ensures len { result ≡ part_length self.now.shape first count }
        ensures within { result ≤ row_length self.now.shape }
    {
        if self.table.shape().samples == 4 {
            4 * count as usize
        } else {
            row_bytes(first % 8 + count)
        }
    }

    /// Reads the bytes of the next row that contain `count` columns from `first` on, as in `next_row`.
    pub fn next_part(&mut self, first: u32, count: u32, into: &mut [u8])
        requires left { self.old.next < self.old.shape.length }
        requires columns { first + count ≤ self.old.shape.width }
        requires room { length into.old ≡ part_length self.old.shape first count }
        ensures part { into.new ≡ image_part self.old.shape self.old.bytes self.old.next first count }
        ensures next { self.new ≡ record self.old { next = self.old.next + 1 } }
    {
        self.place.read(&self.table, first, count, into);
        self.last = LastRow::none();
    }

    /// Returns whether each ink of a contone image has its own plane.
    pub fn has_planes(&self) -> bool
        ensures { IsTrue result ↔ (planes self.now.shape ≡ 4) }
    {
        self.table.shape().planes() == 4
    }

    /// Reads the inks of the next row, each of which has its own plane: from column `first` on, as many
    /// samples of each ink as its slice holds. The samples are those of `next_row`.
    pub fn next_planes(
        &mut self,
        first: u32,
        cyan: &mut [u8],
        magenta: &mut [u8],
        yellow: &mut [u8],
        black: &mut [u8],
    )
        requires left { self.old.next < self.old.shape.length }
        requires planes { planes self.old.shape ≡ 4 }
        requires cyan { first + length cyan.old ≤ self.old.shape.width }
        requires magenta { first + length magenta.old ≤ self.old.shape.width }
        requires yellow { first + length yellow.old ≤ self.old.shape.width }
        requires black { first + length black.old ≤ self.old.shape.width }
        ensures cyan { cyan.new
            ≡ ink_part self.old.shape self.old.bytes self.old.next 0 first (length cyan.old) }
        ensures magenta { magenta.new
            ≡ ink_part self.old.shape self.old.bytes self.old.next 1 first (length magenta.old) }
        ensures yellow { yellow.new
            ≡ ink_part self.old.shape self.old.bytes self.old.next 2 first (length yellow.old) }
        ensures black { black.new
            ≡ ink_part self.old.shape self.old.bytes self.old.next 3 first (length black.old) }
        ensures next { self.new ≡ record self.old { next = self.old.next + 1 } }
    {
        self.last = self
            .place
            .read_inks(&self.table, first, cyan, magenta, yellow, black);
    }

    /// Skips the next row and returns true, if it is known to equal the row above it: in black, and in the
    /// colours if `colour`. Known are rows that `next_planes` read whole, of the same strip and packed alike;
    /// only their packed bytes are compared. Otherwise nothing changes.
    pub fn pass_again(&mut self, colour: bool) -> bool
        requires planes { planes self.old.shape ≡ 4 }
        ensures again { IsTrue result → ComesAgain self.old.shape self.old.bytes colour self.old.next }
        ensures left { IsTrue result → self.old.next < self.old.shape.length }
        ensures next { IsTrue result → self.new ≡ record self.old { next = self.old.next + 1 } }
        ensures kept { result ≡ false → self.new ≡ self.old }
    {
        self.place.pass_again(&self.table, colour, &self.last)
    }

    /// Skips the next `count` rows. Strips that end among them are not read any further, except a last strip
    /// with fewer than RowsPerStrip rows.
    pub fn skip_rows(&mut self, count: u32)
        requires left { self.old.next + count ≤ self.old.shape.length }
        ensures next { self.new ≡ record self.old { next = self.old.next + count } }
    {
        self.place.skip(&self.table, count);
        self.last = LastRow::none();
    }
}

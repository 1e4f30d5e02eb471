// A cursor over an image. It reads a crop's columns of a row into a buffer that all images share.
use crate::layer::Crop;
use std::marker::Model;
use tif_strips::RowCursor;

/// Reads the rows of an image. Contracts see the cursor.
#[derive(Drop)]
pub(crate) struct RowReader<'a> {
    rows: RowCursor<'a>,
    /// The number of rows passed so far, including the row read last.
    read: u32,
}

impl<'a> Model for RowReader<'a> {
    ghost use Rattle.std.specs.Prelude.{◌≡◌, ◌<◌, ◌-◌, ◌≤◌, length};
    ghost use Rattle.tif_strips.specs.Strips.{Cursor};

    ghost Value = { Cursor };

    ghost view = { λ r. r.rows };

    ghost invariant = { λ r. r.read ≡ r.rows.next };
}

impl<'a> RowReader<'a> {
    ghost use Rattle.std.specs.Prelude.{◌≡◌, ◌+◌, ◌-◌, ◌<◌, ◌≤◌, ◌↔◌, IsTrue, false, length};
    ghost use Rattle.tif_strips.specs.Again.{ComesAgain};
    ghost use Rattle.tif_strips.specs.Strips.{ink_part, planes, row_length};
    ghost use Rattle.page_layers.specs.Reader.{Holds, crop_length, crop_part};

    /// Makes a reader from a cursor before the first row.
    pub(crate) fn new(rows: RowCursor<'a>) -> RowReader<'a>
        requires { rows.next ≡ 0 }
        ensures { result ≡ rows.entry }
    {
        RowReader { rows, read: 0 }
    }

    /// Returns the number of rows passed so far, including the row read last.
    pub(crate) fn read(&self) -> u32
        ensures { result ≡ self.now.next }
    {
        self.read
    }

    /// Advances to row `y`, and reads a crop's columns of it into the front of a buffer.
    pub(crate) fn reach(&mut self, y: u32, crop: Crop, room: &mut [u8])
        requires before { self.old.next ≤ y }
        requires small { y < 65535 }
        requires within { y < self.old.shape.length }
        requires columns { crop.x + crop.width ≤ self.old.shape.width }
        requires long { row_length self.old.shape ≤ length room.old }
        ensures reader { self.new ≡ record self.old { next = y + 1 } }
        ensures part { Holds self.new crop room.new }
        ensures room { length room.new ≡ length room.old }
    {
        self.rows.skip_rows(y - self.read);
        let len = self.rows.part_len(crop.x, crop.width);
        self.rows.next_part(crop.x, crop.width, &mut room[..len]);
        self.read = y + 1;
    }

    /// Returns whether each ink of a contone image has its own plane.
    pub(crate) fn has_planes(&self) -> bool
        ensures { IsTrue result ↔ (planes self.now.shape ≡ 4) }
    {
        self.rows.has_planes()
    }

    /// Advances to row `y` of an image whose inks have their own planes, and reads it from column `first` on:
    /// as many samples of each ink as its slice holds.
    pub(crate) fn reach_planes(
        &mut self,
        y: u32,
        first: u32,
        cyan: &mut [u8],
        magenta: &mut [u8],
        yellow: &mut [u8],
        black: &mut [u8],
    )
        requires before { self.old.next ≤ y }
        requires small { y < 65535 }
        requires within { y < self.old.shape.length }
        requires planes { planes self.old.shape ≡ 4 }
        requires cyan { first + length cyan.old ≤ self.old.shape.width }
        requires magenta { first + length magenta.old ≤ self.old.shape.width }
        requires yellow { first + length yellow.old ≤ self.old.shape.width }
        requires black { first + length black.old ≤ self.old.shape.width }
        ensures reader { self.new ≡ record self.old { next = y + 1 } }
        ensures cyan { cyan.new ≡ ink_part self.old.shape self.old.bytes y 0 first (length cyan.old) }
        ensures magenta { magenta.new
            ≡ ink_part self.old.shape self.old.bytes y 1 first (length magenta.old) }
        ensures yellow { yellow.new ≡ ink_part self.old.shape self.old.bytes y 2 first (length yellow.old) }
        ensures black { black.new ≡ ink_part self.old.shape self.old.bytes y 3 first (length black.old) }
    {
        self.rows.skip_rows(y - self.read);
        self.rows.next_planes(first, cyan, magenta, yellow, black);
        self.read = y + 1;
    }

    /// Skips row `y` of an image whose inks have their own planes and returns true, if it is the next row and is
    /// known to equal the row above it: in black, and in the colours if `colour`. Otherwise nothing changes.
    pub(crate) fn pass_again(&mut self, y: u32, colour: bool) -> bool
        requires small { y < 65535 }
        requires planes { planes self.old.shape ≡ 4 }
        ensures at { IsTrue result → self.old.next ≡ y }
        ensures again { IsTrue result → ComesAgain self.old.shape self.old.bytes colour y }
        ensures reader { IsTrue result → self.new ≡ record self.old { next = y + 1 } }
        ensures kept { result ≡ false → self.new ≡ self.old }
    {
        if self.read != y {
            return false;
        }
        if !self.rows.pass_again(colour) {
            return false;
        }
        self.read = y + 1;
        true
    }

    /// Returns the crop's columns of the row read last, from the buffer that they were read into.
    pub(crate) fn part<'b>(&self, crop: Crop, room: &'b [u8]) -> &'b [u8]
        requires { Holds self.now crop room.now }
        ensures part { result.now ≡ crop_part self.now crop }
        ensures len { length result.now ≡ crop_length self.now crop }
    {
        let len = self.rows.part_len(crop.x, crop.width);
        &room[..len]
    }

    /// Restarts before the first row, with a new cursor over the same image.
    pub(crate) fn restart(&mut self, rows: RowCursor<'a>)
        requires { rows ≡ record self.old { next = 0 } }
        ensures { self.new ≡ record self.old { next = 0 } }
    {
        self.rows = rows;
        self.read = 0;
    }
}

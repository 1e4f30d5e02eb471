// The tested strips of an image.
ghost use Rattle.std.specs.Prelude.{◌≡◌, ◌*◌, IfOk, None, OnOk, length};
ghost use Rattle.std.specs.Result.{result_err};
ghost use Rattle.tif_strips.specs.Marks.{MarksOf, marks_per_strip};
ghost use Rattle.tif_strips.specs.Extents.{extents_of};
ghost use Rattle.tif_strips.specs.Strips.{IsStriped, strip_count, strip_fault};

use crate::extents::Extent;
use crate::strip_table::StripTable;
use crate::walk::{test, test_wide};
use crate::{RowCursor, Shape};
use pr_base::{NoMemory, TagFault};
use std::alloc::Global;
use std::marker::Model;
use std::thread::Threads;
use tif_dir::Dir;

/// The strips of an image, all of which are within the file and have the samples that they need. Contracts
/// see the image's shape and the bytes of its file.
#[derive(Drop)]
pub struct Strips<'a> {
    table: StripTable<'a>,
}

impl<'a> Model for Strips<'a> {
    ghost use Rattle.tif_strips.specs.Strips.{Image};
    ghost use Rattle.tif_strips.specs.Table.{HasPassed};

    ghost Value = { Image };

    ghost view = { λ s. s.table };

    ghost invariant = { λ s. HasPassed s.table.shape s.table.bytes };
}

impl<'a> Strips<'a> {
    /// Tests StripOffsets, StripByteCounts and each strip, in this order. `dir` is the directory of
    /// `bytes`, and `shape` has passed the tests of the other fields.
    pub fn check(bytes: &'a [u8], dir: &Dir<'a>, shape: Shape) -> Result<Strips<'a>, TagFault>
        requires dir { dir.now ≡ bytes.now }
        requires shape { IsStriped shape }
        ensures strips { IfOk result (λ strips. strips ≡ record { shape = shape; bytes = bytes.now }) }
        ensures fault { result_err result ≡ strip_fault shape bytes.now }
    {
        let table = StripTable::read(bytes, dir, shape)?;
        match test(&table, 0, shape.strip_count(), 0, &mut [], &mut None) {
            Some(fault) => Err(fault),
            None => Ok(Strips { table }),
        }
    }

    /// Makes the same tests by at most `threads` threads. If all pass, sets the marks of the strips, for
    /// which `Shape::mark_count` is the room.
    pub fn check_wide<T: Threads + Sync>(
        rt: &T,
        threads: usize,
        bytes: &'a [u8],
        dir: &Dir<'a>,
        shape: Shape,
        marks: &mut [u32],
    ) -> Result<Strips<'a>, TagFault>
        requires dir { dir.now ≡ bytes.now }
        requires shape { IsStriped shape }
        requires room { length marks.old ≡ strip_count shape * marks_per_strip shape }
        ensures strips { IfOk result (λ strips. strips ≡ record { shape = shape; bytes = bytes.now }) }
        ensures marks { OnOk result (MarksOf (record { shape = shape; bytes = bytes.now }) marks.new) }
        ensures fault { result_err result ≡ strip_fault shape bytes.now }
    {
        let table = StripTable::read(bytes, dir, shape)?;
        let per = shape.marks_per_strip();
        match test_wide(rt, threads, &table, 0, shape.strip_count(), per, marks) {
            Some(fault) => Err(fault),
            None => Ok(Strips { table }),
        }
    }

    /// Returns where the strips are in the file.
    pub fn extents(&self, alloc: Global) -> Result<Vec<Extent>, NoMemory>
        ensures { IfOk result (λ extents. extents.items ≡ extents_of self.now) }
    {
        self.table.all_extents(alloc)
    }

    /// Returns the strips of an image whose tests are known to pass, without reading anything of its file.
    /// `extents` are those of its strips, and `marks` those that the tests set, or none.
    pub fn of_tested(
        bytes: &'a [u8],
        shape: Shape,
        extents: &'a [Extent],
        marks: &'a [u32],
    ) -> Strips<'a>
        requires shape { IsStriped shape }
        requires passed { strip_fault shape bytes.now ≡ None }
        requires extents { extents.now ≡ extents_of (record { shape = shape; bytes = bytes.now }) }
        requires marks { MarksOf (record { shape = shape; bytes = bytes.now }) marks.now }
        ensures { result ≡ record { shape = shape; bytes = bytes.now } }
    {
        Strips {
            table: StripTable::kept(bytes, shape, extents, marks),
        }
    }

    /// Returns a cursor over the rows of the image, from top to bottom.
    pub fn rows(&self) -> RowCursor<'a>
        ensures { result ≡ record { shape = self.now.shape; bytes = self.now.bytes; next = 0 } }
    {
        RowCursor::new(self.table.copied())
    }
}

// The tests of a file for one use, by several threads where its strips take long.
ghost use Rattle.std.specs.Prelude.{◌≡◌, ◌*◌, IfOk, length};
ghost use Rattle.std.specs.Result.{result_err};
ghost use Rattle.tif_strips.specs.Marks.{marks_per_strip};
ghost use Rattle.tif_strips.specs.Strips.{IsStriped, strip_count};
ghost use Rattle.tif_image.specs.Found.{IsFound};
ghost use Rattle.tif_image.specs.Image.{shape_of};
ghost use Rattle.tif_image.specs.Tested.{Tells};

use crate::check::{image_fields, marks_zeros};
use crate::found::Found;
use crate::test_fault::TestFault;
use crate::usage::Usage;
use pr_base::NoMemory;
use std::alloc::Global;
use std::thread::{Threads, available_parallelism};
use tif_dir::read_dir;
use tif_strips::{Shape, Strips};

/// The bytes from which a packed file is tested by several threads: below, starting these takes longer than
/// the test.
const LONG_FILE: usize = 1 << 20;

/// The most threads that test a file.
const MOST_THREADS: usize = 8;

/// Tests a file's header and directory, fields and strips, in this order, and returns what they found, or the
/// first fault. The strips of a long packed file are tested by as many threads as there are processors, up to
/// eight.
#[tactic(auto, unfolding(crate::specs::Image::shape_of))]
pub fn test_image<T: Threads + Sync>(
    rt: &T,
    alloc: Global,
    bytes: &[u8],
    usage: Usage,
) -> Result<Found, TestFault>
    ensures found { IfOk result (IsFound usage bytes.now) }
    ensures first { Tells result (result_err (shape_of usage bytes.now)) }
{
    let dir = read_dir(bytes)?;
    let shape = image_fields(&dir, usage)?;
    let mut marks = room_for(alloc, shape)?;
    let threads = threads_for(rt, bytes.len(), shape);
    let strips = Strips::check_wide(rt, threads, bytes, &dir, shape, marks.as_mut_slice())?;
    let extents = strips.extents(alloc)?;
    Ok(Found::of(shape, marks_zeros(&dir), extents, marks))
}

/// Returns room for the marks of an image.
fn room_for(alloc: Global, shape: Shape) -> Result<Vec<u32>, NoMemory>
    requires { IsStriped shape }
    ensures { IfOk result (λ marks. length marks.items ≡ strip_count shape * marks_per_strip shape) }
{
    Ok(vec![in alloc; 0; shape.mark_count()]?)
}

/// Returns how many threads test the strips of a file of `len` bytes.
fn threads_for<T: Threads>(rt: &T, len: usize, shape: Shape) -> usize {
    if !shape.packed || len < LONG_FILE {
        return 1;
    }
    match available_parallelism(rt) {
        Ok(processors) => processors.get().min(MOST_THREADS),
        Err(_) => 1,
    }
}

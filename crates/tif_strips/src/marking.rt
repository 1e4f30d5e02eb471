// The test of packed bytes, which leaves marks: the offsets of packets at which rows begin.
ghost use Rattle.std.specs.Prelude.{◌≡◌, ◌≢◌, ℕ, ◌+◌, ◌*◌, ◌<◌, ◌≤◌, ◌↔◌, IfNone, IfSome, IsTrue, List};
ghost use Rattle.std.specs.Prelude.{Some, length, slice_index};
ghost use Rattle.tif_packbits.specs.Packbits.{expansion};
ghost use Rattle.tif_strips.specs.Marking.{Reached};
ghost use Rattle.tif_strips.specs.Marks.{HasMarks, IsMark};

use tif_packbits::PacketCursor;

/// Returns whether packed bytes expand to at least `n` bytes. If so, sets each mark to the offset of the
/// packets that expand to what is `step` bytes behind the mark before it; to 0 where a packet goes on there,
/// or the `n` bytes have ended.
pub(crate) fn mark_packed(stored: &[u8], n: usize, step: usize, marks: &mut [u32]) -> bool
    ensures enough { IsTrue result ↔ (n ≤ length (expansion stored.now)) }
    ensures marks { IsTrue result → HasMarks stored.now step marks.new }
{
    let mut cursor = PacketCursor::new(stored);
    let mut left = n;
    for mark in marks.iter_mut() {
        match next_mark(&mut cursor, step, &mut left) {
            Some(next) => *mark = next,
            None => return false,
        }
    }
    cursor.skip(left as u64).is_ok()
}

/// Sets marks that say nothing.
pub(crate) fn unmark(marks: &mut [u32])
    ensures { (k : ℕ) → k < length marks.new → slice_index marks.new k ≡ 0 }
{
    marks.fill(0);
}

/// Returns the mark at an index, 0 if there is none.
pub(crate) fn mark_at(marks: &[u32], at: usize) -> u32
    ensures { result ≡ slice_index marks.now at }
{
    match marks.get(at) {
        Some(mark) => *mark,
        None => 0,
    }
}

// Skips the next `step` bytes, if as many are left to skip, and returns the mark of what follows them.
// Returns `None` if the packed bytes end before.
fn next_mark(cursor: &mut PacketCursor<'_>, step: usize, left: &mut usize) -> Option<u32>
    ensures next { (stored : List ℕ) (n k : ℕ) → Reached stored n step k left.old cursor.old
        → IfSome result (λ mark. Reached stored n step (k + 1) left.new cursor.new
        × IsMark stored ((k + 1) * step) mark) }
    ensures short { (stored : List ℕ) (n k : ℕ) → Reached stored n step k left.old cursor.old
        → IfNone result (length (expansion stored) < n) }
{
    if *left < step {
        return Some(0);
    }
    if cursor.skip(step as u64).is_err() {
        return None;
    }
    *left -= step;
    Some(mark_of(cursor.offset()))
}

// Returns an offset as a mark: 0 if it is unknown.
fn mark_of(offset: Option<usize>) -> u32
    ensures { result ≢ 0 → offset ≡ Some result }
{
    match offset {
        Some(at) => u32::try_from(at).unwrap_or(0),
        None => 0,
    }
}

// A buffer for the bytes of one row.
ghost use Rattle.std.specs.Prelude.{All, ◌≡◌, ℕ, List, IfOk, length, replicate};
ghost use Rattle.press_feed.specs.Rows.{AreRows};

use pr_base::NoMemory;
use std::alloc::Global;
use std::marker::Model;

/// The bytes of a row of a plate, or of its frame. Contracts see the bytes.
#[derive(Drop)]
pub(crate) struct ByteRow {
    pub(crate) bytes: Vec<u8>,
}

impl Model for ByteRow {
    ghost use Rattle.std.specs.Prelude.{List, ℕ};

    ghost Value = { List ℕ };

    ghost view = { λ r. r.bytes.items };
}

impl ByteRow {
    /// Returns a row of `len` bytes, with no pixel set.
    pub(crate) fn new(alloc: Global, len: usize) -> Result<ByteRow, NoMemory>
        ensures { IfOk result (λ row. row ≡ replicate len 0) }
    {
        Ok(ByteRow {
            bytes: vec![in alloc; 0; len]?,
        })
    }

    /// Lends the bytes.
    pub(crate) fn bytes(&self) -> &[u8]
        ensures { result.now ≡ self.now }
    {
        &self.bytes
    }
}

/// Returns `count` rows of `len` bytes each, with no pixel set.
pub(crate) fn byte_rows(alloc: Global, count: usize, len: usize) -> Result<Vec<ByteRow>, NoMemory>
    ensures rows { IfOk result (λ rows. AreRows count len rows.items) }
    ensures blank { IfOk result (λ rows. All (λ row. row ≡ replicate len 0) rows.items) }
{
    let mut rows = Vec::with_capacity(alloc, count)?;
    for _row in 0..count {
        rows.push(ByteRow::new(alloc, len)?)?;
    }
    Ok(rows)
}

/// Clears all pixels of a row.
pub(crate) fn clear(bits: &mut [u8])
    ensures { bits.new ≡ replicate (length bits.old) 0 }
{
    bits.fill(0);
}

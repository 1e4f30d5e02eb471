// How rows pass between layers: by number from a deal, or in order from a feed.
ghost use Rattle.std.specs.Prelude.{◌≡◌, List, ℕ, ◌∷◌, length};
ghost use Rattle.std.specs.List.{All};
ghost use Rattle.pr_base.specs.Row.{FitsNext};

/// A list of rows of equal length, whose number and length are known before any row is computed.
///
/// Implementers define `rows`, all rows from number 0 on, and `size`, the bytes per row. Callers learn the
/// number of rows from `total`, and from `row_len` the length that every row has.
pub trait Deal {
    /// All rows in order, each a list of bytes.
    ghost rows: { Self → List (List ℕ) };

    /// The bytes per row, defined even if there are no rows.
    ghost size: { Self → ℕ };

    /// Returns the number of rows.
    fn total(&self) -> u64
        ensures { result ≡ length (rows self.now) };

    /// Returns the bytes per row.
    fn row_len(&self) -> usize
        ensures size { result ≡ size self.now }
        ensures each { All (λ row. length row ≡ result) (rows self.now) };
}

/// A sequence of rows, produced in order from the first.
///
/// Implementers define `left`, the rows still to come. Callers pass a buffer of the next row's length, and
/// may call `next` only while a row is left. No call allocates.
pub trait RowFeed {
    /// The rows still to come, in order.
    ghost left: { Self → List (List ℕ) };

    /// Writes the next row to `row` and advances past it.
    fn next(&mut self, row: &mut [u8])
        requires { FitsNext (left self.old) (length row.old) }
        ensures { left self.old ≡ row.new ∷ left self.new };
}

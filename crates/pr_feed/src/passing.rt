// A feed from which only some rows are taken.
ghost use Rattle.std.specs.Prelude.{◌≡◌, ◌<◌, drop, length};

use pr_base::RowFeed;

/// A feed that can advance past a row without making it.
///
/// Implementers make nothing for a row that is passed over. Callers pass over a row only while one is left.
pub trait PassingFeed: RowFeed {
    /// Advances past the next row.
    fn pass(&mut self)
        requires { 0 < length (Self.left self.old) }
        ensures { Self.left self.new ≡ drop 1 (Self.left self.old) };
}

// What the writer does with its feed before it asks for a row.
ghost use Rattle.std.specs.Prelude.{◌≡◌};

use pr_base::RowFeed;

/// What is done with a feed before it is asked for a row, such as making rows ahead.
///
/// Implementers define `may`, the condition under which it may be done. The rows still to come stay the same.
pub trait Ahead<F: RowFeed> {
    ghost may: { Type 0 };

    /// Makes rows ahead, if it does so at all. Called before each row.
    fn make(&self, feed: &mut F)
        requires { may }
        ensures { F.left feed.new ≡ F.left feed.old };
}

/// Makes nothing ahead: a row is made on request.
#[derive(Drop)]
pub(crate) struct AsAsked;

impl<F: RowFeed> Ahead<F> for AsAsked {
    ghost use Rattle.std.specs.Prelude.{⊤};

    ghost may = { ⊤ };

    fn make(&self, feed: &mut F) {
        let _ = feed;
    }
}

// The rows that a diffuser took, step by step. They exist only in proofs: at run time they take no memory and
// no time.
ghost use Rattle.std.specs.Prelude.{◌≡◌, List, ℕ, [], ◌∷◌, ◌++◌};
ghost use Rattle.std.specs.Borrow.{ftrue};
ghost use Rattle.std.specs.Coded.{coded_list, coded_ℕ};
ghost use Rattle.scr_diffuse.specs.Block.{rows_in};

use std::marker::Model;

#[derive(Drop)]
pub(crate) struct History {
    ghost steps: { List (List (List ℕ)) } by { coded_list (coded_list (coded_list coded_ℕ)) },
}

impl Model for History {
    ghost also_owns = { λ _. ftrue };
}

// SAFETY: a history owns nothing.
unsafe impl Send for History {}

/// The rows of one step.
#[derive(Drop)]
pub(crate) struct Rows<'a> {
    pub values: &'a [&'a [u8]],
}

impl History {
    pub(crate) fn new() -> History
        ensures { result.steps ≡ [] }
    {
        History {}
    }

    #[inline(always)]
    pub(crate) fn then(&self, _rows: &Rows<'_>) -> History
        ensures { result.steps ≡ self.now.steps ++ rows_in _rows.now.values.now ∷ [] }
    {
        History {}
    }
}

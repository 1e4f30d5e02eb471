// A text that contracts see as its bytes: a path, a name or a word from a file.
ghost use Rattle.std.specs.Prelude.{◌≡◌, List, ℕ, IfOk, string_bytes, nat_eq};
ghost use Rattle.std.specs.Cmp.Lexicographic.{pointwise};
ghost use Rattle.std.proofs.lemmas.Cmp.{nat_list_eq_equiv};
ghost use Rattle.std.specs.Cmp.{partial_equiv_from_equiv};

use crate::NoMemory;
use std::alloc::Global;
use std::fmt;
use std::marker::Model;

/// An owned text, such as the path of a file. Contracts see its UTF-8 bytes.
#[derive(Debug, Drop)]
pub struct PathText {
    text: String,
}

impl Model for PathText {
    ghost Value = { List ℕ };

    ghost view = { λ p. string_bytes p.text };
}

impl PathText {
    /// Copies `text`.
    pub fn of(alloc: Global, text: &str) -> Result<PathText, NoMemory>
        ensures { IfOk result (λ path. path ≡ text.now) }
    {
        Ok(PathText {
            text: String::from_str(alloc, text)?,
        })
    }

    /// Returns the text.
    pub fn as_str(&self) -> &str
        ensures { result.now ≡ self.now }
    {
        self.text.as_str()
    }
}

impl PartialEq for PathText {
    ghost eq = { pointwise nat_eq };

    ghost laws = { partial_equiv_from_equiv nat_list_eq_equiv };

    fn eq(&self, other: &PathText) -> bool {
        self.text == other.text
    }
}

impl Eq for PathText {
    ghost laws = { nat_list_eq_equiv };
}

impl fmt::Display for PathText {
    ghost use Rattle.std.specs.Prelude.{Some};

    ghost output = { λ path. Some path };

    fn fmt<W: fmt::Write>(&self, f: &mut fmt::Formatter<W>) -> fmt::Result {
        f.write_str(self.text.as_str())
    }
}

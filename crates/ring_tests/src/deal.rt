// The rows that the tests pass through a ring.
ghost use Rattle.std.specs.Prelude.{◌≡◌};
ghost use Rattle.ring_tests.specs.Numbered.{numbered_row, numbered_rows};

use pr_base::Deal;
use ring_lanes::{Held, Source};

/// Rows of two bytes that encode their number.
#[derive(Drop)]
pub struct Numbered {
    pub total: u64,
}

impl Deal for Numbered {
    ghost rows = { λ deal. numbered_rows deal.total };

    ghost size = { λ _. 2 };

    fn total(&self) -> u64 {
        self.total
    }

    fn row_len(&self) -> usize {
        2
    }
}

/// Returns the bytes of row `row`.
pub fn row_bytes(row: u64) -> [u8; 2]
    ensures { result ≡ numbered_row row }
{
    [(row % 256) as u8, (row / 256 % 256) as u8]
}

/// Whether a row has this number, these bytes and this source.
pub fn is_row(held: &Held, number: u64, bytes: &[u8], source: Source) -> bool {
    held.number() == number && held.bytes() == bytes && held.source() == source
}

/// Whether all of these are true.
pub fn are_all(facts: &[bool]) -> bool {
    facts.iter().all(|fact| *fact)
}

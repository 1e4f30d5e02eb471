// The place of a row.

use pr_base::Ink;

/// The place of a row: its group's index, its y from the top of the plate, and its ink.
#[derive(Clone, Copy, PartialEq, Eq)]
pub struct RowPlace {
    pub group: usize,
    pub y: u32,
    pub ink: Ink,
    /// 0 to 4 for C, M, Y, K, S.
    pub slot: usize,
}

impl RowPlace {
    ghost use Rattle.std.specs.Prelude.{◌≡◌};
    ghost use Rattle.plan_rows.specs.Rows.{place_of};

    /// Returns the place of a row of this ink.
    pub(crate) fn of(group: usize, y: u32, ink: Ink) -> RowPlace
        ensures { result ≡ place_of group y ink }
    {
        RowPlace {
            group,
            y,
            ink,
            slot: ink.slot(),
        }
    }
}

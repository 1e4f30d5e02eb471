// One of the plates that a site makes.
ghost use Rattle.std.specs.Prelude.{◌≡◌};

use pr_base::PathText;

/// A plate of a site: its path, the number of its first row among all rows of the edition, the distance
/// between the numbers of consecutive rows, and the slot it is built in: 0 to 4 for C, M, Y, K, S.
#[derive(Drop)]
pub(crate) struct SitePlate {
    pub(crate) path: PathText,
    pub(crate) first: u64,
    pub(crate) step: u32,
    pub(crate) slot: usize,
}

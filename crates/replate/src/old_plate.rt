// A plate of the old job.

use pr_base::Ink;

/// A plate of the old job: the indexes of its site and its group, and its ink.
#[derive(Clone, Copy, PartialEq, Eq)]
pub struct OldPlate {
    pub site: usize,
    pub group: usize,
    pub ink: Ink,
}

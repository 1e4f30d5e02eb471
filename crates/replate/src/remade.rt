// How a delivery ended at a site.

use pr_base::PathText;

/// How a delivery of the plates that must be made ended at a site.
#[derive(PartialEq, Eq, Drop)]
pub enum RemadeEnd {
    /// All plates that must be made are finished: `made` of them. The other `kept` plates were kept.
    Done { made: u32, kept: u32 },
    /// A call of its rack failed for the plate with this path, after `made` plates were finished.
    Left { made: u32, path: PathText },
}

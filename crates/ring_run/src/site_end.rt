// How a run ended at its sites.

use site_agent::LeftCause;

/// How a site ended. It is no end of a turn (`TurnEnd` of site_agent): where a run returns, no site waits,
/// and none ran out of memory.
#[derive(PartialEq, Eq, Drop)]
pub enum SiteEnd {
    /// All its plates are finished: `plates` of them, of `rows` rows in total.
    Finished { plates: u32, rows: u64 },
    /// A call of its rack failed.
    Left(LeftCause),
}

/// How a run ended: the end of each site, in the plan's order.
#[derive(Drop)]
pub struct Outcome {
    pub sites: Vec<SiteEnd>,
}

// The result of giving a row to a site.

use pr_base::PathText;
use pr_rack::RackCall;

/// Why a site dropped out: how many of its plates were finished, the number of the row, the call that its
/// rack counted as failed, and the path of the row's plate.
#[derive(PartialEq, Eq, Drop)]
pub struct LeftCause {
    pub plates: u32,
    pub row: u64,
    pub call: RackCall,
    pub path: PathText,
}

/// The result of giving a row to a site.
#[derive(PartialEq, Eq, Drop)]
pub enum Kept {
    /// The row was kept, or is not one of the site's.
    Done,
    /// A call of the rack failed. The site keeps no more rows.
    Left(LeftCause),
    /// The rack ran out of memory. The site keeps no more rows.
    Memory,
}

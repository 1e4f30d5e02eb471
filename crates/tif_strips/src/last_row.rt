// The row of each ink that was read last, as it is packed.
use tif_packbits::WholePackets;

/// The packets of the row of each ink that was read last, where they are known.
#[derive(Drop)]
pub(crate) struct LastRow<'a> {
    pub cyan: Option<WholePackets<'a>>,
    pub magenta: Option<WholePackets<'a>>,
    pub yellow: Option<WholePackets<'a>>,
    pub black: Option<WholePackets<'a>>,
}

impl<'a> LastRow<'a> {
    ghost use Rattle.std.specs.Prelude.{◌≡◌};
    ghost use Rattle.tif_strips.specs.Again.{none_known};

    /// Returns that of no ink.
    pub(crate) fn none() -> LastRow<'a>
        ensures { result ≡ none_known }
    {
        LastRow {
            cyan: None,
            magenta: None,
            yellow: None,
            black: None,
        }
    }
}

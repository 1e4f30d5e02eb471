// Laws that relate packings and frames to their rows.
ghost use Rattle.tif_packbits.specs.Frame.{TellsItsRow};
ghost use Rattle.tif_packbits.specs.Packbits.{ExpandsToItsRow, StaysWithinBound};

/// States that expanding a packing gives back the row.
pub fn packing_expands_to_its_row()
    ensures { ExpandsToItsRow }
{}

/// States that the packing of a row never exceeds its bound.
pub fn packing_stays_within_bound()
    ensures { StaysWithinBound }
{}

/// States that rows of equal length with equal frames are equal.
pub fn frame_tells_its_row()
    ensures { TellsItsRow }
{}

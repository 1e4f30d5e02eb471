// Laws that hold for every schedule. Each is the contract of a function with an empty body.
ghost use Rattle.ring_core.specs.Plain.{PlainIsSound};
ghost use Rattle.ring_core.specs.Laws.{EveryEventKeeps, EveryRunIsSound, FillsOnlyClosedRows};

/// Every possible event takes a sound schedule to a sound schedule.
pub fn every_event_keeps()
    ensures { EveryEventKeeps }
{}

/// The schedule after every list of events is sound.
pub fn every_run_is_sound()
    ensures { EveryRunIsSound }
{}

/// A lane is filled only after its reader has closed all earlier rows of that lane.
pub fn fills_only_closed_rows()
    ensures { FillsOnlyClosedRows }
{}

/// The plain reading of a sound schedule is sound.
pub fn plain_is_sound()
    ensures { PlainIsSound }
{}

// What each atomic step's caller learns from it.
ghost use Rattle.ring_rule.specs.Plays.{LooksAt, PublishesAt, PlacesAt, SeesAt, TakesAt, GivesAt, AdvancesAt};
ghost use Rattle.ring_rule.specs.Plays.{LeavesAt};

use crate::{Lane, View};
use atomic_table::Play;

/// The writer loads the cursor of a reader.
pub struct Looks;

impl Play<Option<Lane>, View> for Looks {
    ghost then = { LooksAt };
}

/// The writer returns a lane that it filled to its slot.
pub struct Places;

impl Play<Option<Lane>, View> for Places {
    ghost then = { PlacesAt };
}

/// The writer stores head + 1.
pub struct Publishes;

impl Play<Option<Lane>, View> for Publishes {
    ghost then = { PublishesAt };
}

/// A reader loads the head.
pub struct Sees;

impl Play<Option<Lane>, View> for Sees {
    ghost then = { SeesAt };
}

/// A reader takes its lane for its next row.
pub struct Takes;

impl Play<Option<Lane>, View> for Takes {
    ghost then = { TakesAt };
}

/// A reader returns that lane to its slot.
pub struct Gives;

impl Play<Option<Lane>, View> for Gives {
    ghost then = { GivesAt };
}

/// A reader stores its cursor + 1.
pub struct Advances;

impl Play<Option<Lane>, View> for Advances {
    ghost then = { AdvancesAt };
}

/// A reader stores that it has left.
pub struct Leaves;

impl Play<Option<Lane>, View> for Leaves {
    ghost then = { LeavesAt };
}

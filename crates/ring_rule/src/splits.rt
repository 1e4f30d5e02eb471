// How the views of seats are split and joined: a reader's seat is split from the writer's, and a note from
// either.
ghost use Rattle.ring_rule.specs.declared.view.View.TheVariants.{Spent};
ghost use Rattle.ring_rule.specs.Plays.{made_more, made_reader, noted, met};

use crate::View;
use atomic_table::{Join, Split};

/// The writer's seat gives the next reader a seat.
pub struct Seating;

impl Split<View> for Seating {
    ghost left = { made_more };

    ghost right = { made_reader };
}

/// A seat makes a note of what it knows.
pub struct Noting;

impl Split<View> for Noting {
    ghost left = { λ view. view };

    ghost right = { noted };
}

/// A seat keeps the content of a note, and the note is spent.
pub struct Meeting;

impl Join<View> for Meeting {
    ghost both = { met };

    ghost spent = { Spent };
}

// The two sides of a plate, and the pages on them.
ghost use Rattle.std.specs.Prelude.{◌≡◌};
ghost use Rattle.press_feed.specs.Sides.{left_edge, page_on};

use plan_rows::Group;
use press_job::Job;

/// A side of a plate, where one of its two pages is.
#[derive(Clone, Copy, PartialEq, Eq)]
pub(crate) enum Side {
    Left,
    Right,
}

impl Side {
    /// The page of a group on this side.
    pub(crate) fn page_of(self, group: &Group) -> usize
        ensures { result ≡ page_on self group.now }
    {
        match self {
            Side::Left => group.left,
            Side::Right => group.right,
        }
    }

    /// The left edge of this side's pages on the plate, in pixels.
    pub(crate) fn left_edge(self, job: &Job) -> u32
        ensures { result ≡ left_edge job.now.plan self }
    {
        let shape = job.shape();
        match self {
            Side::Left => shape.left_x,
            Side::Right => shape.right_x,
        }
    }
}

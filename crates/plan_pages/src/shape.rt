// The sides of a plate and the positions of its pages.
ghost use Rattle.std.specs.Prelude.{◌≡◌};
ghost use Rattle.pr_base.specs.Number.{IsWithin};
ghost use Rattle.plan_pages.specs.Plate.{shape_of_plate};

use plan_json::Plan;

/// A plate in pixels: its sides, the columns at which its two pages begin, and the row at which both begin.
#[derive(Clone, Copy, PartialEq, Eq)]
pub struct PlateShape {
    pub width: u32,
    pub height: u32,
    pub left_x: u32,
    pub right_x: u32,
    pub top_y: u32,
}

/// Returns the shape of every plate of a plan: two pages side by side, the gutter between them and the
/// margins around them.
pub fn plate_shape(plan: &Plan) -> PlateShape
    ensures shape { result ≡ shape_of_plate plan.now }
    ensures width { IsWithin 2 65535 result.width }
    ensures height { IsWithin 1 65535 result.height }
{
    let [left, top, right, bottom] = plan.margins;
    PlateShape {
        width: left + 2 * plan.page_width + plan.gutter + right,
        height: top + plan.page_height + bottom,
        left_x: left,
        right_x: left + plan.page_width + plan.gutter,
        top_y: top,
    }
}

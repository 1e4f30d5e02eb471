// The sides of the plates of a plan.
ghost use Rattle.std.specs.Prelude.{◌≡◌};
ghost use Rattle.plan_json.specs.Plan.{IsPlan};
ghost use Rattle.plan_rows.specs.Sides.{plate_sides as sides_of_plates};
ghost use Rattle.tif_plate.specs.Plate.{IsDpi, IsSide};

use plan_json::Plan;
use plan_pages::plate_shape;
use tif_plate::Sides;

/// Returns the sides of each plate of a plan, and its resolution.
pub fn plate_sides(plan: &Plan) -> Sides
    ensures sides { result ≡ sides_of_plates plan.now }
    ensures width { IsSide result.width }
    ensures height { IsSide result.height }
    ensures dpi { IsDpi result.dpi }
    ensures plan { IsPlan plan.now }
{
    let shape = plate_shape(plan);
    Sides {
        width: shape.width,
        height: shape.height,
        dpi: plan.dpi,
    }
}

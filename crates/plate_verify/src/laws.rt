// What it means that all plates match.
ghost use Rattle.std.specs.Prelude.{◌≡◌, ◌≤◌, ℕ, List, All, length};
ghost use Rattle.plan_json.specs.Data.{PlanData, plate_width};
ghost use Rattle.plan_json.specs.Plan.{IsPlan};
ghost use Rattle.plan_rows.specs.Plates.{PlateOf, plate_rows};
ghost use Rattle.tif_plate.specs.Plate.{plate_file};
ghost use Rattle.plate_verify.specs.Order.{plates_in_order};
ghost use Rattle.plate_verify.specs.Wrong.{AllRight, AreHeld, first_wrong, most_bytes};

/// `Same` is equivalent to every file of every site being held with its right bytes; its number is then the
/// number of plates of all sites. With rows of at most 8,192 bytes, as in every plan, no plate is longer than
/// the load limit, so no right plate is reported as too long.
pub fn same_is_a_yes()
    ensures held { (plan : PlanData) (rows : List (List ℕ)) (out : List ℕ)
        (held : List (List ℕ × List ℕ)) (n : ℕ) →
        first_wrong plan rows out held ≡ AllRight n → AreHeld plan rows out held }
    ensures number { (plan : PlanData) (rows : List (List ℕ)) (out : List ℕ)
        (held : List (List ℕ × List ℕ)) (n : ℕ) →
        first_wrong plan rows out held ≡ AllRight n → n ≡ length (plates_in_order plan) }
    ensures same { (plan : PlanData) (rows : List (List ℕ)) (out : List ℕ)
        (held : List (List ℕ × List ℕ)) →
        IsPlan plan → All (λ row. length row ≤ 8192) rows → AreHeld plan rows out held →
        first_wrong plan rows out held ≡ AllRight (length (plates_in_order plan)) }
    ensures within { (plan : PlanData) (rows : List (List ℕ)) (plate : PlateOf) →
        IsPlan plan → All (λ row. length row ≤ 8192) rows →
        length (plate_file (plate_width plan) plan.dpi (plate_rows plan rows plate)) ≤ most_bytes }
{}

// A law of the order of rows, as defined.
ghost use Rattle.std.specs.Prelude.{◌≡◌, ℕ, List};
ghost use Rattle.plan_json.specs.Data.{PlanData};
ghost use Rattle.plan_rows.specs.Groups.{groups_of};
ghost use Rattle.plan_rows.specs.Rows.{keeps_row, row_places};
ghost use Rattle.plan_rows.specs.Plates.{site_files};
ghost use Rattle.plan_rows.specs.Spot.{SameButSpot};

/// The law of the spot ink. Two plans that differ only in their values for the spot ink (its screen and
/// curve, its letter in marks, and its values in layers) have the same groups and the same rows in the same
/// order; their sites keep the same rows, and have the same files given the same rows.
pub fn spot_law()
    ensures groups { (a b : PlanData) → SameButSpot a b → groups_of a ≡ groups_of b }
    ensures rows { (a b : PlanData) → SameButSpot a b → row_places a ≡ row_places b }
    ensures keeps { (a b : PlanData) (site n : ℕ) → SameButSpot a b →
        keeps_row a site n ≡ keeps_row b site n }
    ensures files { (a b : PlanData) (rows : List (List ℕ)) (out : List ℕ) (site : ℕ) → SameButSpot a b →
        site_files a rows out site ≡ site_files b rows out site }
{}

// Laws of the rows of plates as they are defined.
ghost use Rattle.std.specs.Prelude.{◌≡◌, ℕ, List};
ghost use Rattle.plan_json.specs.Data.{PlanData};
ghost use Rattle.plan_rows.specs.Plates.{site_files};
ghost use Rattle.plan_rows.specs.Spot.{SameButSpot};
ghost use Rattle.press_job.specs.Rows.{plate_rows};
ghost use Rattle.press_job.specs.Spotless.{IsSpotless};

/// If no page prints the spot ink, what a plan says about it (its screen and curve, its letter in marks, and
/// the layers' values of it) affects neither the rows of the plates nor the files of a site.
pub fn spotless_law()
    ensures rows { (a b : PlanData) (files : List (List ℕ)) → IsSpotless a → SameButSpot a b →
        plate_rows a files ≡ plate_rows b files }
    ensures sites { (a b : PlanData) (files : List (List ℕ)) (out : List ℕ) (site : ℕ) → IsSpotless a →
        SameButSpot a b →
        site_files a (plate_rows a files) out site ≡ site_files b (plate_rows b files) out site }
{}

// The law of replating, and the law of parts.
ghost use Rattle.std.specs.Prelude.{◌≡◌, ◌<◌, ◌↔◌, ℕ, Bool, IsTrue, List, length};
ghost use Rattle.plan_json.specs.Plan.{IsPlan};
ghost use Rattle.plan_rows.specs.Paths.{site_name};
ghost use Rattle.replate.specs.Inputs.{JobData};
ghost use Rattle.replate.specs.Picks.{MustMake};
ghost use Rattle.replate.specs.Plates.{PlateAt, IsPlateOf, has_path, path_below};
ghost use Rattle.replate_law.specs.Law.{bytes_of_plate, files_of_site, held_in, picked_files, remade_at};
ghost use Rattle.replate_law.specs.Part.{HasPlate, IsPlateIn, IsSectionAt, PrintAlike, SectionAt, SitePrints};

/// A new plate that need not be made is already present: the old job has a plate with its path, and the file
/// of that plate has the bytes of the new one. Nothing is required of the files of either job.
pub fn replate_law()
    ensures held { (before after : JobData) (new : PlateAt) → IsPlan before.plan
        → ¬ (MustMake before after new) → IsTrue (has_path before.plan (path_below after.plan new)) }
    ensures same { (before after : JobData) (old new : PlateAt) → IsPlan before.plan → IsPlan after.plan
        → IsPlateOf before.plan old → IsPlateOf after.plan new
        → path_below before.plan old ≡ path_below after.plan new
        → ¬ (MustMake before after new) → bytes_of_plate before old ≡ bytes_of_plate after new }
    // A rack that had the files of an old site has, path by path, those of the new site with the same name,
    // after the plates that must be made are stored and the dropped ones deleted.
    ensures remade { (before after : JobData) (out path : List ℕ) (old_site site : ℕ) (made : PlateAt → Bool)
        → IsPlan before.plan → IsPlan after.plan
        → old_site < length before.plan.sites → site < length after.plan.sites
        → site_name before.plan old_site ≡ site_name after.plan site
        → ((new : PlateAt) → IsPlateOf after.plan new → IsTrue (made new) ↔ MustMake before after new)
        → remade_at before after out old_site site made path ≡ held_in (files_of_site after out site) path }
    // If no site of the old job has the name of a site, all files of that site are made.
    ensures new_site { (before after : JobData) (out : List ℕ) (site : ℕ) (made : PlateAt → Bool)
        → IsPlan before.plan → IsPlan after.plan → site < length after.plan.sites
        → ((old : ℕ) → old < length before.plan.sites
        → ¬ (site_name before.plan old ≡ site_name after.plan site))
        → ((new : PlateAt) → IsPlateOf after.plan new → IsTrue (made new) ↔ MustMake before after new)
        → picked_files after out site made ≡ files_of_site after out site }
{}

/// If two jobs print a section alike at a site, each of its plates there is the same file in both, whatever
/// other sections, sites and zones either job has. So the plates of a part are those of the full edition, and
/// the reverse. Nothing is required of the files of either job.
pub fn part_law()
    ensures turned { (a b : SectionAt) → PrintAlike a b → PrintAlike b a }
    ensures unmade { (whole part : SectionAt) (plate : PlateAt) → IsSectionAt whole → IsSectionAt part
        → PrintAlike whole part → IsPlateIn part plate → ¬ (MustMake whole.job part.job plate) }
    ensures same { (whole part : SectionAt) (plate : PlateAt) → IsSectionAt whole → IsSectionAt part
        → PrintAlike whole part → IsPlateIn part plate → HasPlate whole part.job plate }
    // If each job prints every section of the other alike at the site, the site's files are the same, path by
    // path.
    ensures files { (a b : JobData) (out path : List ℕ) (site its : ℕ) → IsPlan a.plan → IsPlan b.plan
        → site < length a.plan.sites → its < length b.plan.sites
        → SitePrints a site b its → SitePrints b its a site
        → held_in (files_of_site a out site) path ≡ held_in (files_of_site b out its) path }
{}

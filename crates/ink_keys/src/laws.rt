// A law of the counts after the rows of an edition were counted.
ghost use Rattle.std.specs.Prelude.{◌≤◌, ℕ, map};
ghost use Rattle.plan_json.specs.Data.{PlanData};
ghost use Rattle.plan_rows.specs.Rows.{RowPlanData};
ghost use Rattle.ring_rule.specs.declared.view.RingNumbers.{RingNumbers};
ghost use Rattle.tif_packbits.specs.Frame.{framed_row};
ghost use Rattle.ink_keys.specs.Counts.{CountsData};
ghost use Rattle.ink_keys.specs.Plates.{AreKeyCounts, CountsPlan};
ghost use Rattle.ink_keys.specs.Turn.{CountsRows};

/// The law of counts. Two turns, the second beginning where the first ended, count their rows as one turn
/// would. After all rows of a plan were counted from zero, the counts of each plate are those of its rows.
pub fn counts_law()
    ensures turns { (rows : RowPlanData) (ring : RingNumbers) (from mid to : ℕ) (old now new : CountsData) →
        from ≤ mid → mid ≤ to → CountsRows rows ring from mid old now → CountsRows rows ring mid to now new →
        CountsRows rows ring from to old new }
    ensures plates { (plan : PlanData) (ring : RingNumbers) (counts : CountsData) →
        CountsPlan plan ring counts → AreKeyCounts plan (map framed_row ring.rows) counts }
{}

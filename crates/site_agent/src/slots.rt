// What a rack reports of its slots.
ghost use Rattle.pr_rack.specs.Told.{all_told};
ghost use Rattle.site_agent.specs.Racks.{AllTellSlots};

use pr_rack::Rack;

/// States that each rack reports of its slots what it reports of the begun ones.
pub fn tell_slots<R: Rack>(racks: &[R])
    ensures { AllTellSlots (all_told R.Rack racks.now) }
{
    let _ = racks;
}

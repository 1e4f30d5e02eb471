// A law of reading plans, as the contract of a function with an empty body.
ghost use Rattle.plan_json.specs.Laws.{PlanOneIsPlanTwo};

/// A plan with number 1 is the same plan with number 2.
pub fn plan_one_is_plan_two()
    ensures { PlanOneIsPlanTwo }
{}

ghost use Rattle.pig_alive.specs.Alive.{LivePlansMeanTheSame};

/// A plan without its dead nodes means what the plan meant.
pub fn live_plans_mean_the_same()
    ensures { LivePlansMeanTheSame }
{}

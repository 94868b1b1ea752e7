ghost use Rattle.pig_prune.specs.Pruned.{PrunedPlansMeanTheSame};

use pig_alive::live_plans_mean_the_same;
use pig_builtins::function_laws;
use pig_cuts::cut_plans_mean_the_same;

/// A pruned plan means what the plan meant.
pub fn pruned_plans_mean_the_same()
    ensures { PrunedPlansMeanTheSame }
{
    function_laws();
    cut_plans_mean_the_same();
    live_plans_mean_the_same();
}

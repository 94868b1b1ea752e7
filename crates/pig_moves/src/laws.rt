ghost use Rattle.pig_moves.specs.Pushed.{ConjunctsAreKept, MovesAreOfTheTable, NoOtherWays, PushedPlansMeanTheSame};

use pig_builtins::function_laws;

/// A plan that is reached by moves means what the plan meant.
pub fn pushed_plans_mean_the_same()
    ensures { PushedPlansMeanTheSame }
{
    function_laws();
}

/// A condition goes where the table of moves says, as it says there.
pub fn moves_are_of_the_table()
    ensures { MovesAreOfTheTable }
{}

/// A condition that may not pass has no way to go there, but for what is left out.
pub fn no_other_ways()
    ensures { NoOtherWays }
{}

/// Conditions that become one have the conjuncts of both, in their order.
pub fn conjuncts_are_kept()
    ensures { ConjunctsAreKept }
{}

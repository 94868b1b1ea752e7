ghost use Rattle.pig_cuts.specs.Laws.{CutNodesHaveCutRows, CutPlansArePlans, CutPlansMeanTheSame, FittedNodesFit};

/// Each live node of a cut plan has the rows of the plan's node, cut, where functions give values of their kind.
pub fn cut_nodes_have_cut_rows()
    ensures { CutNodesHaveCutRows }
{}

/// A cut plan means what the plan meant, where functions give values of their kind.
pub fn cut_plans_mean_the_same()
    ensures { CutPlansMeanTheSame }
{}

/// The next node of a plan that is cut node by node is valid behind the fitted nodes before it, where it sees all that
/// it looks at: `Plan::add` refuses none.
pub fn fitted_nodes_fit()
    ensures { FittedNodesFit }
{}

/// What is cut node by node is a plan.
pub fn cut_plans_are_plans()
    ensures { CutPlansArePlans }
{}

ghost use Rattle.pig_share.specs.Shared.{LowerStatementsStay, OrderedPlansShareAll, SharedNodesAreOnce, SharedPlansMeanTheSame};

/// A plan that shares nodes means what the plan meant.
pub fn shared_plans_mean_the_same()
    ensures { SharedPlansMeanTheSame }
{}

/// In a plan that shares nodes no two live nodes do the same to the same inputs, but for those that stay apart.
pub fn shared_nodes_are_once()
    ensures { SharedNodesAreOnce }
{}

/// Where the nodes of a plan stand in the order of their statements, as those of a script do, and no two STOREs have
/// one path, no two live nodes of the shared plan but bare LIMITs have the same operator and inputs. Of nodes that do
/// the same the one of the lower statement stays.
pub fn ordered_plans_share_all()
    ensures once { OrderedPlansShareAll }
    ensures lower { LowerStatementsStay }
{}

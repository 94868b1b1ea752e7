ghost use Rattle.pig_plan.specs.Laws.{FurtherNodesChangeNone, MeaningGoesByNodes, MeaningsAreLineFree, MeaningsAreOfKinds, MeaningsAreValues, OperatorsKeepAlike, OrderGoesBySlices};
ghost use Rattle.pig_plan.specs.Laws.{FilterGoesByPieces, ForeachGoesByPieces, JoinGivesPairs, OrderGoesByCutPoints, UnionGoesByPieces};
ghost use Rattle.pig_plan.specs.Laws.{OthersSeeBags, PartsGiveTheWhole, SortedNodesAreLists};
ghost use Rattle.pig_plan.specs.Laws.{ConditionsGoByConjuncts, DistinctGoesByParts, KeptGoesByTasks, OperatorsGoByKey, PathsGiveTheNode, TakeGoesByTasks};

/// The meaning of each node of a plan is its operator on the meanings of its inputs.
pub fn meaning_goes_by_nodes()
    ensures { MeaningGoesByNodes }
{}

/// A further node changes the meaning of none before it.
pub fn further_nodes_change_none()
    ensures { FurtherNodesChangeNone }
{}

/// Operators depend on the rows of their inputs only as bags, but for those that hand a list on: an ASSERT, a STORE,
/// and a LIMIT on a sorted node. Of rows that agree as bags, and as lists where the node is a list, each operator
/// makes such rows.
pub fn operators_see_bags()
    ensures others { OthersSeeBags }
    ensures all { OperatorsKeepAlike }
    ensures sorted { SortedNodesAreLists }
{}

/// Entries that are split into parts by their keys, in any tasks, give part by part what they give at once.
pub fn parts_give_the_whole()
    ensures { PartsGiveTheWhole }
{}

/// GROUP ALL, GROUP, COGROUP and JOIN are what is made of each key and the bags of the rows that have it.
pub fn operators_go_by_key()
    ensures { OperatorsGoByKey }
{}

/// DISTINCT of parts, in any tasks, is that of the whole; so are the first rows of tasks' first rows, and rows that are
/// kept of those that tasks kept.
pub fn rows_go_by_tasks()
    ensures distinct { DistinctGoesByParts }
    ensures first { TakeGoesByTasks }
    ensures kept { KeptGoesByTasks }
{}

/// The rows that come on all paths to a node are what it means, where its sources' rows are what these mean.
pub fn paths_give_the_node()
    ensures { PathsGiveTheNode }
{}

/// Slices between places in the order of an ORDER, each sorted, are in turn the whole sorted; so are those between cut
/// points.
pub fn order_goes_by_slices()
    ensures parts { OrderGoesBySlices }
    ensures points { OrderGoesByCutPoints }
{}

/// An inner JOIN of two inputs gives the joined rows of each pair of equal keys that hold no null, and no others.
pub fn a_join_gives_pairs()
    ensures { JoinGivesPairs }
{}

/// FILTER, FOREACH and UNION of rows that come in pieces give what they give of the pieces, one after the other.
pub fn rows_go_by_pieces()
    ensures filter { FilterGoesByPieces }
    ensures foreach { ForeachGoesByPieces }
    ensures union { UnionGoesByPieces }
{}

/// The rows of the live nodes of a plan are rows of values: bags are sorted, keys of maps ascend and differ, numbers are in
/// range and texts are UTF-8. So it is where the inputs are of bytes, what a bare LIMIT kept stands among the rows of its
/// source, and functions give values of values.
pub fn meanings_are_values()
    ensures { MeaningsAreValues }
{}

/// The rows of the live nodes of a plan hold no line end, where the premises of [`meanings_are_values`] hold and functions
/// give values without a line end of such values. So each stored row is one line.
pub fn meanings_are_line_free()
    ensures { MeaningsAreLineFree }
{}

/// The rows of each live node are of the kinds that [`Plan::kinds`](crate::Plan::kinds) tells, where functions give values
/// of their kind: what is typed stays so, whatever the inputs hold.
pub fn meanings_are_of_kinds()
    ensures { MeaningsAreOfKinds }
{}

/// A row passes a condition just where it passes each of its conjuncts.
pub fn conditions_go_by_conjuncts()
    ensures { ConditionsGoByConjuncts }
{}

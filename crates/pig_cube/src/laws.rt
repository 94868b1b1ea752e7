ghost use Rattle.pig_cube.specs.Laws.{BlocksExpandRelations, BlocksExpandRows, BlocksHaveKinds, OperatorsGiveTheCube, PlansGiveTheCube};
ghost use Rattle.pig_cube.specs.Laws.{ForeachHasKinds, ForeachWritesNoLineEnd, GroupHasKinds, GroupWritesNoLineEnd};

/// The block makes of a row, as a bag, the rows of the chosen sets, whatever the row holds; and so of all rows of a relation.
pub fn blocks_expand_rows()
    ensures row { BlocksExpandRows }
    ensures relation { BlocksExpandRelations }
{}

/// On rows with a chararray at each dimension the block gives rows of a chararray for each, and then of the other kinds in
/// order.
pub fn blocks_have_kinds()
    ensures { BlocksHaveKinds }
{}

/// The two nodes of a cube are valid behind a node that gives rows with a chararray at each dimension. The FOREACH gives
/// rows of the block's kinds, and the GROUP over it the key and the bag of them.
pub fn plans_take_cubes()
    ensures foreach { ForeachHasKinds }
    ensures group { GroupHasKinds }
    ensures foreach_texts { ForeachWritesNoLineEnd }
    ensures group_texts { GroupWritesNoLineEnd }
{}

/// A FOREACH by the block and a GROUP by its first fields give, as a bag, the cube: for each distinct list of dimensions in
/// the expanded rows of all rows, that key and the bag of the expanded rows with it.
pub fn two_nodes_give_the_cube()
    ensures operators { OperatorsGiveTheCube }
    ensures plans { PlansGiveTheCube }
{}

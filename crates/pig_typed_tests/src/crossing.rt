//! Expressions, blocks and their parts may be shared and handed to other threads.
use pig_typed::{
    Block, BlockItem, BlockItems, BlockStep, BlockSteps, SortKey, SortKeys, TExpr, TExprs, TLink,
    TLinks,
};
use pig_value::Positions;

fn crosses<T: Send + Sync>() {}

#[test]
fn parts_cross_threads() {
    crosses::<TExpr>();
    crosses::<TLink>();
    crosses::<TExprs>();
    crosses::<TLinks>();
    crosses::<Positions>();
    crosses::<Block>();
    crosses::<BlockStep>();
    crosses::<BlockSteps>();
    crosses::<BlockItem>();
    crosses::<BlockItems>();
    crosses::<SortKey>();
    crosses::<SortKeys>();
}

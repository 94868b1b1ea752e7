//! Typed expressions and the blocks of FOREACH.
#![tactic(auto)]

mod blocks;
mod calls;
mod copying;
mod exprs;
mod generating;
mod kinds;
mod laws;
mod operators;
mod projections;
mod seen;

pub use blocks::{Block, BlockItem, BlockItems, BlockStep, BlockSteps, SortKey, SortKeys};
pub use copying::{copy_block, copy_expr, copy_exprs, copy_keys, copy_positions};
pub use exprs::{TExpr, TExprs, TLink, TLinks};
pub use generating::{are_sort_keys, block_kinds};
pub use kinds::kind_of;
pub use laws::{kinds_are_kept, lines_are_kept, rows_go_one_by_one, values_are_kept};

// Expressions and blocks may be shared and handed to other threads.
fn crosses<T: Send + Sync>() {}

fn crosses_threads() {
    crosses::<TExpr>();
    crosses::<Block>();
}

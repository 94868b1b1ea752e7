//! Plans of Pig Latin scripts, and what their nodes mean.
#![tactic(auto)]

mod checking;
mod copying;
mod counting;
mod exchanging;
mod given;
mod keyed;
mod laws;
mod literals;
mod live;
mod naming;
mod nodes;
mod plan;
mod rooming;
mod shared;
mod sorted;
mod valued;
mod written;

pub use copying::copy_node;
pub use counting::path_counts;
pub use laws::{
    a_join_gives_pairs, conditions_go_by_conjuncts, further_nodes_change_none,
    meaning_goes_by_nodes, meanings_are_line_free, meanings_are_of_kinds, meanings_are_values,
    operators_go_by_key, operators_see_bags, order_goes_by_slices, parts_give_the_whole,
    paths_give_the_node, rows_go_by_pieces, rows_go_by_tasks,
};
pub use live::{live_marks, live_numbers};
pub use nodes::{KeyedInput, KeyedInputs, Node, NodeOp, Nodes};
pub use plan::Plan;
pub use rooming::no_rows;
pub use sorted::{is_marked, sorted_marks};

//! What it is to move a condition of a FILTER towards the sources, that plans mean the same then, and the calls over one
//! condition by which it is done.
#![tactic(auto)]

mod chaining;
mod extents;
mod handing;
mod joining;
mod keying;
mod laws;
mod naming;
mod putting;

pub use chaining::{add_conjuncts, all_and, chained, conjoined, conjuncts};
pub use handing::hands_all;
pub use joining::{Spot, find_spot, is_open, over_at};
pub use keying::{hands_key, put_key};
pub use laws::{
    conjuncts_are_kept, moves_are_of_the_table, no_other_ways, pushed_plans_mean_the_same,
};
pub use naming::fields;
pub use putting::{Instead, put};

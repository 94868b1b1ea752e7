//! The operators by key over sorted runs: of a node's entries, the rows that the node gives.
#![tactic(auto)]

mod batches;
mod by_key;
mod choosing;
mod cogrouping;
mod groups;
mod joining;
mod keyed;
mod nulls;
mod outer;
mod places;
mod whole;

pub use batches::{Gatherer, Orderer};
pub use by_key::{Gathering, gather};
pub use choosing::{gathering_of_group, gathering_of_join};
pub use cogrouping::{has_own_row, is_missing};
pub use keyed::{add_all_rows, add_row, add_rows};
pub use nulls::has_null;
pub use outer::{left_stays, right_stays};
pub use whole::{distinct_keys, limited, ordered};

//! What right tasks hand on fits them: laws on the kinds of rows and entries.
#![tactic(auto)]

mod laws;

pub use laws::{loads_fit, map_forms_fit, parts_fit, rank_forms_fit, reduce_forms_fit};

//! The typing of FOREACH with its nested block, and of the keys of an ORDER.
//!
//! [`type_foreach`] takes the steps of a nested block and the items of its GENERATE, over the columns of a row, to a typed block and to
//! the columns of the rows that it generates; or it answers a kind of refusal whose condition holds. [`sort_keys`] takes the keys of an
//! ORDER to the places of its fields.
//!
//! `specs/Steps` has the typing of nested steps as a relation, one case for each form, beside the condition of each kind of refusal, and
//! `specs/Foreach` that of the whole. [`foreach_has_one_typing`] says that there is one typing or a refusal and never both.
#![tactic(auto)]

mod bags;
mod foreach;
mod keys;
mod laws;
mod steps;

pub use foreach::{TypedForeach, type_foreach};
pub use keys::sort_keys;
pub use laws::{
    foreach_has_its_kinds, foreach_has_one_typing, foreach_writes_no_line_end, orders_have_keys,
    orders_have_one_typing,
};

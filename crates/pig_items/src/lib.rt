//! The typing of the items of a GENERATE.
//!
//! [`type_items`] takes the items, over the columns of a row and the nested aliases so far, to typed items and to the columns of all
//! fields that they give; or it answers a kind of refusal whose condition holds.
//!
//! `specs/Items` has the typing of items as a relation, one case for each form, beside the condition of each kind of refusal.
//! [`items_have_one_typing`] says that there is one typing or a refusal and never both.
#![tactic(auto)]

mod items;
mod laws;

pub use items::{Generated, type_items};
pub use laws::{items_have_one_typing, items_have_their_kinds, items_write_no_line_end};

//! Schemas, and which field of one a name or a position means.
//!
//! A [`Schema`] lists the fields of a relation's tuples. [`find`] takes a name to the one field that it
//! means, [`at`] a position, and [`kinds`] gives the kinds of the fields; [`copy_field`] and [`copy_schema`] copy.
//!
//! `specs/Names` says when a name fits a field, which field it means, and when it is unknown or ambiguous, over the
//! names of the fields alone; [`a_name_means_one_field`] that this is decided. `specs/FieldTrees` has fields as trees,
//! and when the fields inside a field are those of its kind.
#![tactic(auto)]

mod laws;
mod naming;
mod schema;

pub use laws::a_name_means_one_field;
pub use naming::{NameFault, at, find};
pub use schema::{Field, Schema, copy_field, copy_schema, kinds};

fn crosses<T: Send + Sync>() {}

// Shows that schemas are `Send` and `Sync`.
fn schemas_cross_threads() {
    crosses::<Schema>();
}

//! The checker: from the trees of a script to its plan.
//!
//! [`check`] gives the nodes of a script's statements in turn, or the number of the first statement without a typing and a kind of
//! refusal whose condition holds of it.
//!
//! `specs/Statements` has the typing of statements as a relation, one case for each form, beside the condition of each kind of refusal;
//! `specs/Operators`, `specs/Splits`, `specs/Unions`, `specs/Cubes` and `specs/Paths` its parts, and `specs/Scripts` what the plan of a script is.
//! [`a_script_has_one_plan`] says that a script has one plan or a first refusal, and never both; [`stores_are_apart`] that no two
//! STOREs of a plan have one path, and [`plans_stand_in_order`] that its nodes stand in the order of the statements.
#![tactic(auto)]

mod asserts;
mod checking;
mod cubes;
mod faults;
mod functions;
mod lasting;
mod laws;
mod operators;
mod paths;
mod splits;
mod state;
mod statements;
mod stores;
mod unions;

pub use checking::check;
pub use faults::CheckFault;
pub use laws::{a_script_has_one_plan, plans_stand_in_order, stores_are_apart};

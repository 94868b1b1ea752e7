//! The typing of expressions.
//!
//! [`type_expr`] takes an expression, over the columns of a row and the nested aliases so far, to its typed expression, with its fields
//! by position and every cast written out, and to the column that it gives; or it answers a kind of refusal whose condition holds.
//!
//! `specs/Typing` has the typing of expressions as a relation, one case for each form, and `specs/Faults` the condition of each kind of
//! refusal. [`expressions_have_one_typing`] says that there is one typing or a refusal and never both.
#![tactic(auto)]

mod calls;
mod columns;
mod conditions;
mod exprs;
mod faults;
mod joins;
mod laws;
mod limits;
mod locals;
mod names;
mod parts;
mod referring;
mod scope;
mod written;

pub use conditions::{TypedExprs, type_condition, type_keys};
pub use exprs::{TypedExpr, cast_type, type_expr};
pub use faults::{CheckKind, TypeFault, in_memory, refused};
pub use laws::{
    conditions_have_one_typing, conditions_have_their_kind, expressions_have_one_typing,
    keys_have_one_typing, keys_have_their_kinds, typings_have_their_kinds,
    typings_write_no_line_end,
};
pub use limits::{MOST_DEPTH, MOST_FIELDS, MOST_KINDS, row_within_limits, within_limits};
pub use locals::{Local, Locals};
pub use names::{narrow, refer};
pub use referring::{type_reference, type_step};
pub use scope::Scope;
pub use written::{with_name, written_schema, written_type};

//! The value of a typed expression on a row, and what holds of every typed expression and block.
//!
//! [`eval`] gives the value that pig_typed's `specs/Evaluation` defines, [`holds`] tells whether a row meets a
//! condition, and [`look`] lends the value where it stands in the row or the locals.
//!
//! [`evaluation_keeps_kinds`], [`evaluation_keeps_values`] and [`evaluation_keeps_lines`] join pig_typed's laws, which
//! ask that functions keep kinds, values and line-freedom, with pig_builtins' laws that they do.
#![tactic(auto)]

mod columns;
mod comparing;
mod evaluating;
mod laws;
mod looking;
mod operators;
mod projecting;
mod seen;

pub use evaluating::{eval, holds};
pub use laws::{evaluation_keeps_kinds, evaluation_keeps_lines, evaluation_keeps_values};
pub use looking::look;
pub use seen::{Seen, owned, value};

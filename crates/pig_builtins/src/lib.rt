//! The functions of the language: what each gives of its arguments.
#![tactic(auto)]

mod applying;
mod folding;
mod laws;
mod making;
mod sizes;
mod texts;
mod tokens;

pub use applying::{apply, apply_one, apply_three, apply_two, is_variadic};
pub use folding::{Fold, apply_column, apply_rows, looked_at};
pub use laws::{column_laws, function_laws};

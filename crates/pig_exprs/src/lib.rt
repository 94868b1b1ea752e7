//! Expressions and written types at the front of a statement's tokens.
//!
//! [`expression`] reads an expression, [`schema`] and [`field`] written types, [`field_ref`] and
//! [`selection`] what names fields. Each gives the tree and the tokens that are left, or says that none
//! stands there. [`Rule`], [`Turning`], [`listed`] and [`repeat`] are what the rules of statements are
//! read by as well.
//!
//! `specs/Grammar` says which tree stands for which tokens, one case for each alternative of a rule.
//! `specs/Reader` and `specs/ExprReader` are how the code finds a tree; that both are one is proved in
//! `proofs/`.
#![tactic(auto)]

mod cases;
mod chains;
mod comparing;
mod exprs;
mod limits;
mod names;
mod operands;
mod patterns;
mod reading;
mod trees;
mod types;

pub use exprs::expression;
pub use limits::{Limits, MOST_COPIED, MOST_COPIED_BYTES, MOST_NESTED, MOST_STEPS, TreeSize};
pub use names::{FieldRefRule, field_ref, selection};
pub use reading::{
    ParseFault, Rule, Turning, after_symbol, after_word, before, behind_symbol, behind_word,
    beside, close_paren, closed, listed, one, repeat,
};
pub use types::{field, schema};

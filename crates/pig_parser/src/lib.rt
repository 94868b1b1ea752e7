//! The second pass over a script: the trees of its statements.
//!
//! [`parse`] takes the tokens of a script and its statements as ranges of them, and gives the tree of each
//! statement, or the number of the first statement that is off the grammar. Expressions and types are read
//! by pig_exprs.
//!
//! `specs/Statements` says which tree stands for which tokens, one case for each alternative of a rule, and
//! `specs/Parsing` what the trees of a script are. `specs/StatementReader` is how the code finds a tree;
//! only private functions speak of it.
#![tactic(auto)]

mod blocks;
mod operators;
mod parsing;
mod parts;
mod statements;

pub use parsing::{SyntaxFault, a_script_has_one_answer, a_statement_has_one_tree, parse};

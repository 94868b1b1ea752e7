//! The first pass over a script: its tokens, where its statements end, and how deep their brackets nest.
//!
//! A script is bytes; its tokens are names, keywords, numbers, positions, texts and symbols, with white
//! space and comments between them. [`lex`] gives exactly these tokens, or the first place where none
//! begins; [`cut`] gives the statements as ranges of tokens, and [`depth`] the greatest number of brackets
//! that are open at once. The trees that statements are read as stand here as types.
//!
//! `specs/Tokens` says what a token's text is and where a token begins, `specs/Cutting` where a statement
//! ends and how deep brackets nest. `specs/Formed` says of trees alone that they are as the grammar gives
//! them, and `specs/ExprTrees` has expressions and written types as plain trees.
#![tactic(auto)]

mod cutting;
mod forms;
mod laws;
mod lexing;
mod scanning;
mod tokens;
mod trees;

pub use cutting::{
    Piece, Pieces, cut, depth, depth_is_one, statements_are_one, statements_lie_within,
};
pub use laws::a_script_has_one_reading;
pub use lexing::{LexFault, lex};
pub use tokens::{Keyword, Symbol, Token, TokenForm, Tokens};
pub use trees::{
    AsNames, BagRef, Branch, Branches, Expr, Exprs, FieldRef, FieldRefs, FieldTree, Fields, Func,
    GroupInput, GroupInputs, Item, Items, JoinInput, JoinInputs, Link, Links, Names, Nested, Op,
    OrderField, OrderFields, OrderKeys, PostStep, PostSteps, Step, Steps, Stmt, Stmts, Texts,
    TypeTree,
};

fn crosses<T: Send + Sync>() {}

// Shows that expressions, schemas, and the steps, keys and inputs that hold them are `Send` and `Sync`.
fn trees_cross_threads() {
    crosses::<Exprs>();
    crosses::<Fields>();
    crosses::<Branches>();
    crosses::<Steps>();
    crosses::<AsNames>();
    crosses::<GroupInputs>();
    crosses::<JoinInputs>();
    crosses::<OrderKeys>();
    crosses::<Func>();
}

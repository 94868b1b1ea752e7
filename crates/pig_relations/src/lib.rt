//! Aliases of relations, and the typing of the operators over them that go by keys or over several inputs.
//!
//! [`Relations`] tells what each alias means. [`type_group`], [`type_group_all`], [`type_join`] and [`type_union`] take an
//! operator over them to that of a plan's node and to the columns of its rows, or answer a kind of refusal whose condition holds.
//! [`cube_columns`] are those of a CUBE, which is more than one node.
//!
//! `specs/Aliases`, `specs/Operators` and `specs/Unions` have the definitions, and `src/laws.rt` what is proved of them.
#![tactic(auto)]

mod aliases;
mod columns;
mod keyed;
mod laws;
mod operators;
mod shared;
mod together;
mod unions;

pub use aliases::{Named, Relation, Relations};
pub use laws::{
    groups_have_one_typing, groups_of_all_have_one_typing, joins_have_one_typing,
    kinds_together_are_the_least, operators_give_their_columns, operators_write_no_line_end,
    unions_give_their_columns, unions_have_one_typing,
};
pub use operators::{TypedOp, cube_columns, type_group, type_group_all, type_join};
pub use shared::SharedSchema;
pub use unions::{TypedUnion, UnionInput, UnionInputs, type_union};

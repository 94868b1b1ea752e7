//! The block that makes the rows of a cube.
//!
//! CUBE and ROLLUP are a FOREACH and a GROUP: [`expand`] makes the block of the FOREACH, and the GROUP is by the dimensions,
//! which are the first fields that it gives. What CUBE and ROLLUP mean stands in `specs/Cubes`, by comprehension; that the
//! two nodes give it is a law.
#![tactic(auto)]

mod blocks;
mod laws;
mod sets;

pub use blocks::expand;
pub use laws::{blocks_expand_rows, blocks_have_kinds, plans_take_cubes, two_nodes_give_the_cube};
pub use sets::{are_dimensions, is_in, other_positions};

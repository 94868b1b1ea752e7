//! Rows kept as their codes, in one list of bytes.
//!
//! A [`PackedBuilder`] takes rows one by one: [`PackedBuilder::write`] adds bytes of a row and [`PackedBuilder::end_row`] ends
//! it, so that a row of any size is written in pieces, without a buffer of its own; [`PackedBuilder::push_code`] adds a row
//! by its code, and [`PackedBuilder::push_row`] one of values. [`Packed`] holds the rows, lends the code of each and decodes
//! one or several. A row takes eight bytes beside its code, and what wants memory changes nothing.
//!
//! The definitions stand in `specs/`: `RowCodes` (the codes of rows, where each ends, and that they tell the rows) and
//! `Growth` (rows as they are added). The laws for crates above stand in `proofs/`: `Standing` (rows joined and taken
//! and their codes, and where the code of a row stands), `Lending` (what is lent is the code of a row) and `Adding` (rows
//! that are added in turn).
#![tactic(auto)]

mod builder;
mod bytes;
mod rows;

pub use builder::PackedBuilder;
pub use rows::Packed;

fn crosses<T: Send + Sync>() {}

// Shows that packed rows, also those that are not finished, are `Send` and `Sync`.
fn packed_rows_cross_threads() {
    crosses::<Packed>();
    crosses::<PackedBuilder>();
}

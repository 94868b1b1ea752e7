//! Values out of text: the field grammar of PigStorage, and casts from one kind to another.
//!
//! [`read_field`] reads the value of a kind from bytes ([`read_field_over`] in the place of another value), [`number`] a whole number, and [`cast`] makes a value
//! of another kind. Each is proved to be what pig_value's `specs/` define: `Brackets` (balanced bodies and
//! their items), `Fields` (`IsField`, `IsNumberText`) and `Casts` (`CanCast`, `cast_of`).
//! [`a_field_has_one_value`] ties the relation `IsField`, which has one case for each kind, to the function
//! `field_value` by which rows and casts are defined. [`fields_are_of_their_kind`] and [`casts_are_of_their_kind`] say that
//! what is read or cast is a value of its kind, and [`fields_are_line_free`] that it holds no LF where its
//! text holds none; [`plain_fields_read_back`] says which values are read again from their text
//! (`specs/Plain`). Crates above cite the lemmas of `proofs/FieldLaw` and `proofs/ReadBack`, and those of
//! pig_value's `proofs/FieldKinds`, `FieldFree`, `CastKinds` and `CastFree`.
//!
//! No call goes deeper than the kind does. At each level of the kind the bytes between two brackets are gone
//! over once, for their brackets and their items, and no list of brackets is taken up to 31 of them deep.
#![tactic(auto)]

mod casting;
mod cutting;
mod fields;
mod keys;
mod laws;
mod numbers;
mod open_brackets;
mod texts;

pub use casting::cast;
pub use fields::{read_field, read_field_over};
pub use laws::{
    a_field_has_one_value, casts_are_of_their_kind, fields_are_line_free, fields_are_of_their_kind,
    plain_fields_read_back,
};
pub use numbers::number;

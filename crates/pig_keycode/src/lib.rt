//! The key code: values as bytes that compare as the values do.
//!
//! [`encode`] appends a value's code, ascending or descending, so that keys are sorted and merged by
//! comparing bytes, [`encode_row`] that of a row, and [`encode_key`] that of a key whose fields have directions of
//! their own. [`decode`], [`decode_row`] and [`read_code`] read ascending codes back. The code is defined in
//! `specs/Codes`, that of a key with its order in `specs/Keys`. [`code_laws`] states what follows: a code tells its
//! value, none is a proper prefix of another, and codes compare as values do, with anything behind them.
//! The lemmas for crates above stand in `proofs/CodeOrder`, `Turned`, `KeyOrder`, `NumberOrder` and `Unique`.
#![tactic(auto)]

mod decoding;
mod encoding;
mod laws;
mod tags;
mod zeros;

pub use decoding::{decode, decode_row, read_code};
pub use encoding::{encode, encode_key, encode_places, encode_row};
pub use laws::code_laws;

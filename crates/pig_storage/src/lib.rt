//! PigStorage text: lines, rows and the texts of rows.
//!
//! An input is bytes that are cut into lines at each LF, a line into fields at each delimiter.
//! [`next_line`] walks the lines, [`line_row`] reads a line's row at the columns of a LOAD, and
//! [`write_row`], of pig_text, appends the text of a row and an LF.
//!
//! Each is proved to be what pig_value's `specs/` define: `Lines` (`lines`, `stored_lines`, `lines_within`),
//! `FieldRows` (`row_of`, by pig_cast's `read_field`) and `Texts` (`text_of`, `row_text`, `IsLineFree`). What
//! follows of these definitions for whole inputs and outputs is in `laws`: which lines start in a range, how
//! far a window of the bytes tells where a line ends (`specs/Windows`), what a row of a line is, that its text is
//! one line, and which rows are read again from their text (`specs/ReadBack`). Crates above cite the lemmas of
//! `proofs/Walks`, `proofs/Starts`, `proofs/LineFree`, `proofs/StoredRows`, `proofs/RowKinds` and `proofs/RowsBack`.
#![tactic(auto)]

mod laws;
mod lines;
mod places;
mod rows;
mod splits;

pub use laws::{
    lines_of_ranges_stand_between, lines_of_splits_are_all, lines_start_in_ranges,
    plain_rows_read_back, rows_are_of_their_kinds, rows_of_lines_are_line_free,
    texts_of_rows_are_lines, windows_tell_line_ends,
};
pub use lines::{Span, next_line};
pub use pig_text::write_row;
pub use rows::{line_row, line_row_over};
pub use splits::{Split, Splits};

ghost use Rattle.std.specs.Prelude.{◌≡◌, ◌≢◌, ◌<◌, ◌≤◌, ◌-◌, ◌++◌, [], ◌∷◌, ℕ, List, Some, length, map, slice_range, All};
ghost use Rattle.std.specs.List.{flat_map, AllByRecursion};
ghost use Rattle.pig_value.specs.declared.inputs.Column.{Column};
ghost use Rattle.pig_value.specs.Delimiters.{IsDelimiter, delimiter_of};
ghost use Rattle.pig_value.specs.FieldRows.{row_of};
ghost use Rattle.pig_value.specs.Kinds.{IsRowOf};
ghost use Rattle.pig_value.specs.Leaves.{AreBytes};
ghost use Rattle.pig_value.specs.Lines.{lines, lines_within, stored_lines};
ghost use Rattle.pig_value.specs.Texts.{HasNoLf, AreLineFreeRows, row_text, rows_text};
ghost use Rattle.pig_value.specs.Trees.{Tree, kind_tree};
ghost use Rattle.pig_value.specs.Valid.{IsRow, AreRows};
ghost use Rattle.pig_storage.specs.NextLine.{line_end};
ghost use Rattle.pig_storage.specs.Splits.{first_start, splits_of_piece};
ghost use Rattle.pig_storage.specs.Windows.{HoldsEnd, TellsEnd};
ghost use Rattle.pig_storage.specs.ReadBack.{StandInTurn, IsPlainRow, IsPlainLine};

/// The row of a line has as many fields as there are columns, each of its column's kind. Where the bytes are
/// bytes, it is a row of values, and so are the rows of an input.
pub fn rows_are_of_their_kinds()
    ensures kinds { (columns : List Column) (delimiter : ℕ) (line : List ℕ) →
        IsRowOf (row_of columns delimiter line) (map (λ column. kind_tree column.kind) columns) }
    ensures values { (columns : List Column) (delimiter : ℕ) (line : List ℕ) → AreBytes line →
        IsRow (row_of columns delimiter line) }
    ensures rows { (columns : List Column) (delimiter : ℕ) (bytes : List ℕ) → AreBytes bytes →
        AreRows (map (row_of columns delimiter) (lines bytes)) }
{}

/// The lines that start in two ranges, one behind the other, are those that start in the whole; and all lines
/// start within the bytes. So the lines that start in ranges that follow each other from 0 to the end are, in
/// order, all lines.
pub fn lines_start_in_ranges()
    ensures parts { (from between to : ℕ) (bytes : List ℕ) → from ≤ between → between ≤ to →
        lines_within from between bytes ++ lines_within between to bytes
        ≡ lines_within from to bytes }
    ensures whole { (to : ℕ) (bytes : List ℕ) → length bytes ≤ to
        → lines_within 0 to bytes ≡ lines bytes }
{}

/// The lines that start in a range are the lines of the bytes between two starts of lines: the first at the range's
/// beginning or behind it, and the first at its end or behind that. So they are read from these bytes alone.
pub fn lines_of_ranges_stand_between()
    ensures lines { (from to : ℕ) (bytes : List ℕ) → from ≤ to →
        lines_within from to bytes
        ≡ lines (slice_range bytes (first_start bytes from) (first_start bytes to)) }
    ensures starts { (from to : ℕ) (bytes : List ℕ) → from ≤ to →
        (first_start bytes from ≤ first_start bytes to) × (first_start bytes to ≤ length bytes) }
{}

/// Where a line ends is told by a window of the bytes, those between two places alone, exactly as far as the window
/// reaches: an LF that it holds at the line's start or behind it is the line's end, an end before the window's is
/// found there, and a window up to the last byte tells each end. Where it holds no such LF, the line ends behind it.
pub fn windows_tell_line_ends()
    ensures seen { (from to place : ℕ) (bytes : List ℕ) → from ≤ place →
        HoldsEnd (slice_range bytes from to) (place - from) → TellsEnd bytes from to place }
    ensures held { (from to place : ℕ) (bytes : List ℕ) → from ≤ place →
        line_end bytes place < to → TellsEnd bytes from to place }
    ensures last { (from to place : ℕ) (bytes : List ℕ) → from ≤ place → length bytes ≤ to →
        TellsEnd bytes from to place }
    ensures beyond { (from to place : ℕ) (bytes : List ℕ) → from ≤ place → to ≤ length bytes →
        ¬ HoldsEnd (slice_range bytes from to) (place - from) → to ≤ line_end bytes place }
{}

/// The lines that start in the splits of a piece are, split by split, the piece's lines.
pub fn lines_of_splits_are_all()
    ensures lines { (split piece : ℕ) (bytes : List ℕ) → 0 < split →
        flat_map (λ s. lines_within s.from s.to bytes) (splits_of_piece split piece (length bytes))
        ≡ lines bytes }
    ensures each { (split piece size : ℕ) → 0 < split →
        AllByRecursion (λ s. (s.piece ≡ piece) × (s.from ≤ s.to) × (s.to ≤ size))
        (splits_of_piece split piece size) }
{}

/// No line of an input holds an LF, and no value that is read from a line does. So the text of a row that is
/// read from a line is one line, whichever delimiter it is written with.
pub fn rows_of_lines_are_line_free()
    ensures lines { (bytes : List ℕ) → All HasNoLf (lines bytes) }
    ensures rows { (columns : List Column) (delimiter : ℕ) (bytes : List ℕ) →
        AreLineFreeRows (map (row_of columns delimiter) (lines bytes)) }
    ensures text { (columns : List Column) (from to : ℕ) (line : List ℕ) → to ≢ 10 → HasNoLf line →
        stored_lines (row_text to (row_of columns from line) ++ 10 ∷ [])
        ≡ row_text to (row_of columns from line) ∷ [] }
{}

/// The texts of line-free rows, each with an LF behind it, have these texts as their lines, since no
/// delimiter is an LF.
pub fn texts_of_rows_are_lines()
    ensures lines { (delimiter : ℕ) → delimiter ≢ 10 → (rows : List (List Tree))
        → AreLineFreeRows rows →
        stored_lines (rows_text delimiter rows) ≡ map (row_text delimiter) rows }
    ensures delimiter { (text : List ℕ) (delimiter : ℕ) →
        delimiter_of text ≡ Some delimiter → IsDelimiter delimiter }
{}

/// A plain row is read again from its text, at columns that stand in turn: each of its values is plain, and
/// no text of one holds the delimiter. So are all rows of an output, where besides no value holds an LF and
/// no row's text ends in a CR.
pub fn plain_rows_read_back()
    ensures row { (columns : List Column) (delimiter : ℕ) (row : List Tree) →
        StandInTurn 0 columns → IsPlainRow columns delimiter row →
        row_of columns delimiter (row_text delimiter row) ≡ row }
    ensures rows { (columns : List Column) (delimiter : ℕ) (rows : List (List Tree)) →
        StandInTurn 0 columns → delimiter ≢ 10 → All (IsPlainLine columns delimiter) rows →
        map (row_of columns delimiter) (lines (rows_text delimiter rows)) ≡ rows }
{}

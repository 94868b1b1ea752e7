ghost use Rattle.std.specs.Prelude.{◌≡◌, ℕ, List, Some, None, map, option_map, IfOk, IfErr, MatchOption};
ghost use Rattle.pig_value.specs.Trees.{Tree, at, bag_kinds, field_tree, fields_of, kind_tree, kinds_in, look_kind, row_tree, rows_of_bag, rows_tree, tree, v_bytes, v_chars, v_tuple};

use crate::{Blob, Boxed, Seq, Text};

/// The fields of a row, in order.
pub type Tuple = Seq<Value>;
/// A list of rows.
pub type Rows = Seq<Tuple>;
/// The pairs of a map.
pub type Pairs = Seq<Pair>;
/// The kinds of a row's fields, in order.
pub type Kinds = Seq<Kind>;

/// A value: a finite tree of these ten forms.
///
/// A bag's rows are sorted by the total order of values; a listed bag is one that a nested ORDER put into
/// an order of its own. A map's pairs stand in ascending order of their keys, which differ.
#[cycle(value)]
#[derive(Debug)]
pub enum Value {
    Null,
    Bool(bool),
    /// A whole number of 32 bits.
    Int(i32),
    /// A whole number of 64 bits.
    Long(i64),
    Chars(Text),
    Bytes(Blob),
    Tuple(Tuple),
    Bag(Rows),
    Listed(Rows),
    Map(Pairs),
}

/// A key of a map with its value.
#[cycle(value)]
#[derive(Debug, Drop)]
pub struct Pair {
    pub key: Text,
    pub value: Value,
}

/// What a column is declared as. A bag has the kinds of its tuples' fields, a map that of its values.
#[derive(Debug)]
pub enum Kind {
    Boolean,
    Int,
    Long,
    Chararray,
    Bytearray,
    Tuple(Kinds),
    Bag(Kinds),
    Map(Boxed<Kind>),
}

// Written and not derived, so that a value's end is one call.
impl Drop for Value {
    #[cycle(drop_value)]
    fn drop(self) {
        match self {
            Value::Null | Value::Bool(_) | Value::Int(_) | Value::Long(_) => {}
            Value::Chars(text) => drop(text),
            Value::Bytes(bytes) => drop(bytes),
            Value::Tuple(fields) => drop(fields),
            Value::Bag(rows) | Value::Listed(rows) => drop(rows),
            Value::Map(pairs) => drop(pairs),
        }
    }
}

impl Drop for Kind {
    #[cycle(drop_kind)]
    fn drop(self) {
        match self {
            Kind::Boolean | Kind::Int | Kind::Long | Kind::Chararray | Kind::Bytearray => {}
            Kind::Tuple(kinds) | Kind::Bag(kinds) => drop(kinds),
            Kind::Map(of) => drop(of),
        }
    }
}

impl Value {
    /// The fields of a tuple; none where the value is no tuple.
    pub fn into_tuple(self) -> Option<Tuple>
        ensures { MatchOption result ((row : List Tree) → ¬ (tree self ≡ v_tuple (fields_of row)))
            (λ row. tree self ≡ v_tuple (fields_of (row_tree row))) }
    {
        match self {
            Value::Tuple(row) => Some(row),
            _ => None,
        }
    }

    /// The text of a chararray; none where the value is no chararray.
    pub fn into_text(self) -> Option<Text>
        ensures { MatchOption result ((text : List ℕ) → ¬ (tree self ≡ v_chars text))
            (λ text. tree self ≡ v_chars text) }
    {
        match self {
            Value::Chars(text) => Some(text),
            _ => None,
        }
    }

    /// The bytes of a bytearray; none where the value is no bytearray.
    pub fn into_blob(self) -> Option<Blob>
        ensures { MatchOption result ((bytes : List ℕ) → ¬ (tree self ≡ v_bytes bytes))
            (λ bytes. tree self ≡ v_bytes bytes) }
    {
        match self {
            Value::Bytes(bytes) => Some(bytes),
            _ => None,
        }
    }

    /// The rows of a bag or of a listed bag, or the value where it is neither.
    pub fn into_rows(self) -> Result<Rows, Value>
        ensures rows { IfOk result (λ rows. rows_of_bag (tree self) ≡ Some (rows_tree rows)) }
        ensures other { IfErr result (λ v. v ≡ self) }
        ensures none { IfErr result (λ _. rows_of_bag (tree self) ≡ None) }
    {
        match self {
            Value::Bag(rows) => Ok(rows),
            Value::Listed(rows) => Ok(rows),
            other => Err(other),
        }
    }
}

impl Kind {
    /// The kinds of a bag's rows; none where the kind is no bag.
    pub fn into_bag(self) -> Option<Kinds>
        ensures { option_map (map kind_tree) result ≡ bag_kinds (kind_tree self) }
    {
        match self {
            Kind::Bag(kinds) => Some(kinds),
            _ => None,
        }
    }

    /// The kinds of a tuple's fields or of a bag's rows, or the kind where it is neither.
    pub fn into_kinds(self) -> Result<Kinds, Kind>
        ensures kinds { IfOk result (λ ks. kinds_in (kind_tree self) ≡ Some (map kind_tree ks)) }
        ensures other { IfErr result (λ k. k ≡ self) }
        ensures none { IfErr result (λ _. kinds_in (kind_tree self) ≡ None) }
    {
        match self {
            Kind::Tuple(kinds) => Ok(kinds),
            Kind::Bag(kinds) => Ok(kinds),
            other => Err(other),
        }
    }

    /// The kind of a map's values; none where the kind is no map.
    pub fn into_values(self) -> Option<Kind>
        ensures { option_map kind_tree result ≡ look_kind (kind_tree self) }
    {
        match self {
            Kind::Map(of) => Some(of.into_inner()),
            _ => None,
        }
    }
}

/// The field of a row at a place, counted from 0.
pub fn field_at(row: &Tuple, place: u32) -> Option<&Value>
    ensures { field_tree result ≡ at place (row_tree row.now) }
{
    row.get(place as usize)
}

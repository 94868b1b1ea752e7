ghost use Rattle.std.specs.Prelude.{◌≡◌, ◌-◌, ◌^◌, ◌↔◌, IsTrue, map, min};
ghost use Rattle.pig_value.specs.Casts.{CastsTo, may_cast};
ghost use Rattle.pig_value.specs.Trees.{tree, entry_of, kind_tree, fields_of, tuples_of, entries_of, kinds_of};
ghost use Rattle.pig_value.specs.Kinds.{depth_of, depths_of, has_bag_or_map, have_bag_or_map, width_of, widths_of, IsOf, is_of_kind, fields_of_kinds, tuples_of_kinds, entries_of_kind, kind_eq, kinds_eq};

use crate::{Kind, Pair, Tuple, Value};

/// Whether a value is of a kind. Null is of each kind, and a listed bag is of a bag kind.
pub fn is_of(v: &Value, k: &Kind) -> bool
    ensures kind { IsTrue result ↔ IsOf (tree v.now) (kind_tree k.now) }
    ensures test { result ≡ is_of_kind (tree v.now) (kind_tree k.now) }
{
    value_is_of(v, k)
}

#[cycle(is_of)]
fn value_is_of(value: &Value, kind: &Kind) -> bool
    ensures { result ≡ is_of_kind (tree value.now) (kind_tree kind.now) }
{
    match (value, kind) {
        (Value::Null, _) => true,
        (Value::Bool(_), Kind::Boolean) => true,
        (Value::Int(_), Kind::Int) => true,
        (Value::Long(_), Kind::Long) => true,
        (Value::Chars(_), Kind::Chararray) => true,
        (Value::Bytes(_), Kind::Bytearray) => true,
        (Value::Tuple(fields), Kind::Tuple(kinds)) => {
            fields_are_of(fields.as_slice(), kinds.as_slice())
        }
        (Value::Bag(rows), Kind::Bag(kinds)) => rows_are_of(rows.as_slice(), kinds.as_slice()),
        (Value::Listed(rows), Kind::Bag(kinds)) => rows_are_of(rows.as_slice(), kinds.as_slice()),
        (Value::Map(pairs), Kind::Map(of)) => values_are_of(pairs.as_slice(), of.get()),
        _ => false,
    }
}

#[cycle(is_of)]
fn fields_are_of(fields: &[Value], kinds: &[Kind]) -> bool
    ensures { result ≡ fields_of_kinds (fields_of (map tree fields.now))
        (kinds_of (map kind_tree kinds.now)) }
{
    let shorter = fields.len().min(kinds.len());
    for i in 0..shorter {
        if !value_is_of(&fields[i], &kinds[i]) {
            return false;
        }
    }
    fields.len() == kinds.len()
}

#[cycle(is_of)]
fn rows_are_of(rows: &[Tuple], kinds: &[Kind]) -> bool
    ensures { result ≡ tuples_of_kinds (tuples_of (map (map tree) rows.now))
        (kinds_of (map kind_tree kinds.now)) }
{
    for i in 0..rows.len() {
        if !fields_are_of(rows[i].as_slice(), kinds) {
            return false;
        }
    }
    true
}

#[cycle(is_of)]
fn values_are_of(pairs: &[Pair], kind: &Kind) -> bool
    ensures { result ≡ entries_of_kind (entries_of (map entry_of pairs.now)) (kind_tree kind.now) }
{
    for i in 0..pairs.len() {
        if !value_is_of(&pairs[i].value, kind) {
            return false;
        }
    }
    true
}

/// Whether two kinds are the same.
pub fn same_kind(a: &Kind, b: &Kind) -> bool
    ensures same { IsTrue result ↔ (kind_tree a.now ≡ kind_tree b.now) }
    ensures test { result ≡ kind_eq (kind_tree a.now) (kind_tree b.now) }
{
    kinds_match(a, b)
}

#[cycle(same_kind)]
fn kinds_match(a: &Kind, b: &Kind) -> bool
    ensures { result ≡ kind_eq (kind_tree a.now) (kind_tree b.now) }
{
    match (a, b) {
        (Kind::Boolean, Kind::Boolean) => true,
        (Kind::Int, Kind::Int) => true,
        (Kind::Long, Kind::Long) => true,
        (Kind::Chararray, Kind::Chararray) => true,
        (Kind::Bytearray, Kind::Bytearray) => true,
        (Kind::Tuple(x), Kind::Tuple(y)) => same_kinds(x.as_slice(), y.as_slice()),
        (Kind::Bag(x), Kind::Bag(y)) => same_kinds(x.as_slice(), y.as_slice()),
        (Kind::Map(x), Kind::Map(y)) => kinds_match(x.get(), y.get()),
        _ => false,
    }
}

/// Whether two lists of kinds are the same, kind by kind.
#[cycle(same_kind)]
pub fn same_kinds(a: &[Kind], b: &[Kind]) -> bool
    ensures { result ≡ kinds_eq (kinds_of (map kind_tree a.now)) (kinds_of (map kind_tree b.now)) }
{
    let shorter = a.len().min(b.len());
    for i in 0..shorter {
        if !kinds_match(&a[i], &b[i]) {
            return false;
        }
    }
    a.len() == b.len()
}

/// Whether each value of the first kind may be cast to the second.
pub fn casts_to(from: &Kind, to: &Kind) -> bool
    ensures test { result ≡ may_cast (kind_tree from.now) (kind_tree to.now) }
    ensures allowed { IsTrue result ↔ CastsTo (kind_tree from.now) (kind_tree to.now) }
{
    is_cast(from, to)
}

fn is_cast(from: &Kind, to: &Kind) -> bool
    ensures { result ≡ may_cast (kind_tree from.now) (kind_tree to.now) }
{
    match (from, to) {
        (Kind::Bytearray, _) => true,
        (Kind::Chararray, Kind::Boolean) => true,
        (Kind::Chararray, Kind::Int) => true,
        (Kind::Chararray, Kind::Long) => true,
        (Kind::Int, Kind::Long) => true,
        (Kind::Long, Kind::Int) => true,
        (Kind::Boolean, Kind::Chararray) => true,
        (Kind::Int, Kind::Chararray) => true,
        (Kind::Long, Kind::Chararray) => true,
        _ => kinds_match(from, to),
    }
}

/// How many kinds there are within a kind, itself counted, or the greatest `usize` where they are more.
#[cycle(width)]
pub fn kind_width(k: &Kind) -> usize
    ensures { result ≡ min (width_of (kind_tree k.now)) (2 ^ 64 - 1) }
{
    match k {
        Kind::Tuple(kinds) => kinds_width(kinds.as_slice()).saturating_add(1),
        Kind::Bag(kinds) => kinds_width(kinds.as_slice()).saturating_add(1),
        Kind::Map(of) => kind_width(of.get()).saturating_add(1),
        _ => 1,
    }
}

#[cycle(width)]
fn kinds_width(kinds: &[Kind]) -> usize
    ensures { result ≡ min (widths_of (kinds_of (map kind_tree kinds.now))) (2 ^ 64 - 1) }
{
    let mut total: usize = 0;
    for i in 0..kinds.len() {
        total = total.saturating_add(kind_width(&kinds[i]));
    }
    total
}

/// How deep a kind nests, from 1 for a scalar, or the greatest `usize` where it is deeper.
#[cycle(depth)]
pub fn kind_depth(k: &Kind) -> usize
    ensures { result ≡ min (depth_of (kind_tree k.now)) (2 ^ 64 - 1) }
{
    match k {
        Kind::Tuple(kinds) => kinds_depth(kinds.as_slice()).saturating_add(1),
        Kind::Bag(kinds) => kinds_depth(kinds.as_slice()).saturating_add(1),
        Kind::Map(of) => kind_depth(of.get()).saturating_add(1),
        _ => 1,
    }
}

#[cycle(depth)]
fn kinds_depth(kinds: &[Kind]) -> usize
    ensures { result ≡ min (depths_of (kinds_of (map kind_tree kinds.now))) (2 ^ 64 - 1) }
{
    let mut deepest: usize = 0;
    for i in 0..kinds.len() {
        deepest = deepest.max(kind_depth(&kinds[i]));
    }
    deepest
}

/// Whether a kind is a bag or a map, or holds one.
#[cycle(holds)]
pub fn holds_bag_or_map(k: &Kind) -> bool
    ensures { result ≡ has_bag_or_map (kind_tree k.now) }
{
    match k {
        Kind::Tuple(kinds) => any_holds(kinds.as_slice()),
        Kind::Bag(_) => true,
        Kind::Map(_) => true,
        _ => false,
    }
}

#[cycle(holds)]
fn any_holds(kinds: &[Kind]) -> bool
    ensures { result ≡ have_bag_or_map (kinds_of (map kind_tree kinds.now)) }
{
    for i in 0..kinds.len() {
        if holds_bag_or_map(&kinds[i]) {
            return true;
        }
    }
    false
}

ghost use Rattle.std.specs.Prelude.{◌≡◌, IsTrue, map};
ghost use Rattle.pig_value.specs.Kinds.{kind_eq, kinds_eq};
ghost use Rattle.pig_value.specs.Trees.{kind_tree, kinds_of};
ghost use Rattle.pig_share.specs.Same.{same_all, same_column};

use pig_value::{Column, Kind};

// Whether two lists of columns are the same.
pub fn are_same_columns(a: &[Column], b: &[Column]) -> bool
    ensures test { result ≡ same_all same_column a.now b.now }
    ensures same { IsTrue result → a.now ≡ b.now }
{
    let mut left = a;
    let mut other = b;
    while let [x, xs @ ..] = left {
        let [y, ys @ ..] = other else {
            return false;
        };
        if !is_same_column(x, y) {
            return false;
        }
        left = xs;
        other = ys;
    }
    other.is_empty()
}

fn is_same_column(a: &Column, b: &Column) -> bool
    ensures test { result ≡ same_column a.now b.now }
    ensures same { IsTrue result → a.now ≡ b.now }
{
    a.position == b.position && is_same_kind(&a.kind, &b.kind)
}

#[cycle(is_same_kind)]
fn is_same_kind(a: &Kind, b: &Kind) -> bool
    ensures test { result ≡ kind_eq (kind_tree a.now) (kind_tree b.now) }
    ensures same { IsTrue result → a.now ≡ b.now }
{
    match (a, b) {
        (Kind::Boolean, Kind::Boolean) => true,
        (Kind::Int, Kind::Int) => true,
        (Kind::Long, Kind::Long) => true,
        (Kind::Chararray, Kind::Chararray) => true,
        (Kind::Bytearray, Kind::Bytearray) => true,
        (Kind::Tuple(x), Kind::Tuple(y)) => are_same_kinds(x.as_slice(), y.as_slice()),
        (Kind::Bag(x), Kind::Bag(y)) => are_same_kinds(x.as_slice(), y.as_slice()),
        (Kind::Map(x), Kind::Map(y)) => is_same_kind(x.get(), y.get()),
        _ => false,
    }
}

#[cycle(is_same_kind)]
fn are_same_kinds(a: &[Kind], b: &[Kind]) -> bool
    ensures test { result
        ≡ kinds_eq (kinds_of (map kind_tree a.now)) (kinds_of (map kind_tree b.now)) }
    ensures same { IsTrue result → a.now ≡ b.now }
{
    let shorter = a.len().min(b.len());
    for i in 0..shorter {
        if !is_same_kind(&a[i], &b[i]) {
            return false;
        }
    }
    a.len() == b.len()
}

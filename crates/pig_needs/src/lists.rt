ghost use Rattle.std.specs.Prelude.{◌≡◌, ◌==◌, OnOk};
ghost use Rattle.pig_needs.specs.Marked.{IsIndex};
ghost use Rattle.pig_needs.specs.Needed.{is_needed, same_need, same_part, with_all, with_one};

use crate::marks::{Marks, add_entry, has_entry, index_of};
use pig_value::Seq;
use std::alloc::{AllocError, Global};

/// What is needed of the rows of a node, each entry once.
pub type NeedList = Seq<Need>;
/// The uses of a node's inputs, in order.
pub type Uses = Seq<Use>;

/// What is needed of a field.
#[derive(Debug, Clone, Copy, PartialEq, Eq, Drop)]
pub enum Part {
    /// The field.
    Whole,
    /// A column of the bag that the field is.
    Column(u32),
    /// How many rows the bag has.
    Rows,
}

/// A field by its position, and what is needed of it.
#[derive(Debug, Clone, Copy, PartialEq, Eq, Drop)]
pub struct Need {
    pub position: u32,
    pub part: Part,
}

/// What an operator names of one of its inputs.
#[derive(Debug, Drop)]
pub struct Use {
    pub input: u32,
    pub named: NeedList,
}

// Whether an entry is there.
pub fn is_needed(need: Need, list: &[Need]) -> bool
    ensures { result ≡ is_needed need list.now }
{
    let mut left = list;
    while let [other, rest @ ..] = left {
        if is_same(need, *other) {
            return true;
        }
        left = rest;
    }
    false
}

fn is_same(a: Need, b: Need) -> bool
    ensures { result ≡ same_need a b }
{
    a.position == b.position && is_same_part(a.part, b.part)
}

fn is_same_part(a: Part, b: Part) -> bool
    ensures { result ≡ same_part a b }
{
    match (a, b) {
        (Part::Whole, Part::Whole) => true,
        (Part::Rows, Part::Rows) => true,
        (Part::Column(q), Part::Column(r)) => q == r,
        _ => false,
    }
}

// Adds entries, each of which then stands once.
pub fn add_all(alloc: Global, list: &mut NeedList, more: &[Need]) -> Result<(), AllocError>
    ensures { OnOk result (list.new ≡ with_all list.old more.now) }
{
    let mut index = index_of(alloc, list.as_slice())?;
    let mut left = more;
    while let [need, rest @ ..] = left {
        add_one(alloc, list, &mut index, *need)?;
        left = rest;
    }
    Ok(())
}

fn add_one(
    alloc: Global,
    list: &mut NeedList,
    index: &mut Vec<Marks>,
    need: Need,
) -> Result<(), AllocError>
    requires { IsIndex list.old index.old.items }
    ensures list { OnOk result (list.new ≡ with_one list.old need) }
    ensures index { OnOk result (IsIndex list.new index.new.items) }
{
    if has_entry(index.as_slice(), need) {
        return Ok(());
    }
    list.push(need)?;
    add_entry(alloc, index, need)
}

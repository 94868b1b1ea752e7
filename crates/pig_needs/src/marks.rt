ghost use Rattle.std.specs.Prelude.{◌≡◌, ◌<◌, ◌||◌, [], ℕ, false, map, length, get_or, IfOk, OnOk};
ghost use Rattle.pig_typed.specs.Typed.{item_typed};
ghost use Rattle.pig_needs.specs.Marked.{AreNamed, HasOneMore, HaveOneMore, IsIndex, has_entry, part_number};
ghost use Rattle.pig_needs.specs.Needed.{column_marks, item_marks};

use crate::{Need, Part};
use pig_typed::BlockItem;
use pig_value::Seq;
use std::alloc::{AllocError, Global};

/// Of each place whether it is marked.
pub type Marks = Seq<bool>;

/// Of each of so many columns of a LOAD whether it stays, where so much is needed of its rows.
pub fn column_marks(alloc: Global, need: &[Need], width: u32) -> Result<Marks, AllocError>
    ensures { IfOk result (λ marks. marks ≡ column_marks need.now width) }
{
    let named = named_marks(alloc, need)?;
    let mut marks = Marks::new(alloc);
    for position in 0..width {
        marks.push(mark_at(named.as_slice(), position))?;
    }
    Ok(marks)
}

/// Of each item of a FOREACH whether it stays, where so much is needed of its rows.
pub fn item_marks(alloc: Global, need: &[Need], items: &[BlockItem]) -> Result<Marks, AllocError>
    ensures { IfOk result (λ marks. marks ≡ item_marks need.now 0 (map item_typed items.now)) }
{
    let named = named_marks(alloc, need)?;
    let mut marks = Marks::new(alloc);
    let mut first: u32 = 0;
    let mut left = items;
    while let [item, rest @ ..] = left {
        marks.push(stays(named.as_slice(), first, item.flatten))?;
        first = first.checked_add(item.width).ok_or(AllocError)?;
        left = rest;
    }
    Ok(marks)
}

// Whether an item stays that gives the field at a position: a FLATTEN does, and else its field is named.
pub fn stays(named: &[bool], first: u32, flatten: bool) -> bool
    ensures { result ≡ (flatten || get_or named.now first false) }
{
    flatten || mark_at(named, first)
}

fn mark_at(marks: &[bool], place: u32) -> bool
    ensures { result ≡ get_or marks.now place false }
{
    match marks.get(place as usize) {
        Some(mark) => *mark,
        None => false,
    }
}

// The positions that are named.
pub fn named_marks(alloc: Global, need: &[Need]) -> Result<Marks, AllocError>
    ensures { IfOk result (λ marks. AreNamed need.now marks) }
{
    let mut marks = Marks::new(alloc);
    let mut left = need;
    while let [entry, rest @ ..] = left {
        set_mark(&mut marks, entry.position as usize)?;
        left = rest;
    }
    Ok(marks)
}

fn set_mark(marks: &mut Marks, place: usize) -> Result<(), AllocError>
    ensures { OnOk result (HaveOneMore place marks.old marks.new) }
{
    make_room(marks, place)?;
    marks.replace(place, true);
    Ok(())
}

fn make_room(marks: &mut Marks, place: usize) -> Result<(), AllocError>
    ensures room { OnOk result (place < length marks.new) }
    ensures same { OnOk result ((k : ℕ) → get_or marks.new k false ≡ get_or marks.old k false) }
{
    'room: while marks.len() <= place {
        marks.push(false)?;
    }
    Ok(())
}

// The entries of a need, to be found at once: of each part the positions of which it is needed.
pub fn index_of(alloc: Global, need: &[Need]) -> Result<Vec<Marks>, AllocError>
    ensures { IfOk result (λ index. IsIndex need.now index.items) }
{
    let mut index = Vec::new(alloc);
    let mut left = need;
    while let [entry, rest @ ..] = left {
        add_entry(alloc, &mut index, *entry)?;
        left = rest;
    }
    Ok(index)
}

// Whether an entry is there.
pub fn has_entry(index: &[Marks], need: Need) -> bool
    ensures { result ≡ has_entry index.now need }
{
    match index.get(part_number(need.part)) {
        Some(marks) => mark_at(marks.as_slice(), need.position),
        None => false,
    }
}

pub fn add_entry(alloc: Global, index: &mut Vec<Marks>, need: Need) -> Result<(), AllocError>
    ensures { OnOk result (HasOneMore need index.old.items index.new.items) }
{
    let number = part_number(need.part);
    make_parts(alloc, index, number)?;
    set_mark(&mut index[number], need.position as usize)
}

fn make_parts(alloc: Global, index: &mut Vec<Marks>, number: usize) -> Result<(), AllocError>
    ensures room { OnOk result (number < length index.new.items) }
    ensures same { OnOk result
        ((j : ℕ) → get_or index.new.items j [] ≡ get_or index.old.items j []) }
{
    'room: while index.len() <= number {
        index.push(Marks::new(alloc))?;
    }
    Ok(())
}

fn part_number(part: Part) -> usize
    ensures { result ≡ part_number part }
{
    match part {
        Part::Whole => 0,
        Part::Rows => 1,
        Part::Column(column) => column as usize + 2,
    }
}

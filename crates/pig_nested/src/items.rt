ghost use Rattle.std.specs.Prelude.{◌≡◌, [], ◌∷◌, map, IfOk, IsTrue};
ghost use Rattle.pig_value.specs.Trees.{at, row_tree, rows_tree, tree};
ghost use Rattle.pig_typed.specs.Blocks.{flattened, item_lists};
ghost use Rattle.pig_typed.specs.Products.{joined, product};
ghost use Rattle.pig_typed.specs.Evaluation.{ev};
ghost use Rattle.pig_typed.specs.Typed.{item_typed, typed};
ghost use Rattle.pig_eval.specs.SeenValues.{seen_tree};
ghost use Rattle.pig_nested.specs.Joinings.{are_plain, joined_on, joining_rows, parts_of_items, plain_fields};

use crate::joining::{Joining, finished, one_empty, starting, with_flattened, with_value};
use pig_eval::{Seen, eval, look, value};
use pig_typed::{BlockItem, BlockItems, TExpr};
use pig_value::{Rows, Seq, Tuple, Value};
use std::alloc::{AllocError, Global};

// All joinings of what the items give on a row, the first item varying slowest.
pub fn rows_of_items(
    alloc: Global,
    items: &BlockItems,
    row: &Tuple,
    locals: Tuple,
) -> Result<Rows, AllocError>
    ensures { IfOk result (λ rows. rows_tree rows
        ≡ product
        (parts_of_items (map item_typed items.now) (row_tree row.now) (row_tree locals))) }
{
    if is_plain(items) {
        return one_row_of(alloc, items, row, locals);
    }
    joined_items(alloc, items, row, &locals)
}

// Whether no item is flattened, so that the block makes one row.
fn is_plain(items: &BlockItems) -> bool
    ensures { result ≡ are_plain (map item_typed items.now) }
{
    for item in items.as_slice() {
        if item.flatten {
            return false;
        }
    }
    true
}

fn one_row_of(
    alloc: Global,
    items: &BlockItems,
    row: &Tuple,
    locals: Tuple,
) -> Result<Rows, AllocError>
    ensures { IfOk result (λ rows. rows_tree rows
        ≡ plain_fields (map item_typed items.now) (row_tree row.now) (row_tree locals) ∷ []) }
{
    let mut rows = Seq::with_capacity(alloc, 1)?;
    rows.push(row_of_items(alloc, items, row, locals)?)?;
    Ok(rows)
}

// The row of plain items, at its right size. The last of them may take its value out of the locals.
fn row_of_items(
    alloc: Global,
    items: &BlockItems,
    row: &Tuple,
    locals: Tuple,
) -> Result<Tuple, AllocError>
    ensures { IfOk result (λ made. row_tree made
        ≡ plain_fields (map item_typed items.now) (row_tree row.now) (row_tree locals)) }
{
    match items.as_slice().split_last() {
        Some((last, front)) => {
            let mut made = front_of_row(alloc, front, row, &locals)?;
            made.push(last_field(alloc, &last.value, row, locals)?)?;
            Ok(made)
        }
        None => Ok(Seq::new(alloc)),
    }
}

// The fields before the last, with room for it.
fn front_of_row(
    alloc: Global,
    items: &[BlockItem],
    row: &Tuple,
    locals: &Tuple,
) -> Result<Tuple, AllocError>
    ensures { IfOk result (λ made. row_tree made
        ≡ plain_fields (map item_typed items.now) (row_tree row.now) (row_tree locals.now)) }
{
    let mut made = Vec::with_capacity(alloc, items.len().saturating_add(1))?;
    for item in items {
        made.push(eval(alloc, &item.value, row, locals)?)?;
    }
    Ok(Seq::from_vec(made))
}

fn last_field(alloc: Global, e: &TExpr, row: &Tuple, locals: Tuple) -> Result<Value, AllocError>
    ensures { IfOk result (λ v. tree v
        ≡ ev (typed e.now) (row_tree row.now) (row_tree locals)) }
{
    match e {
        TExpr::Local(n) => Ok(taken(locals, *n)),
        _ => eval(alloc, e, row, &locals),
    }
}

// The field at a place, taken out of its row, and null where there is none.
fn taken(row: Tuple, place: u32) -> Value
    ensures { tree result ≡ at place (row_tree row) }
{
    let mut fields = row.into_vec();
    let place = place as usize;
    if place >= fields.len() {
        return Value::Null;
    }
    fields.swap_remove(place)
}

fn joined_items(
    alloc: Global,
    items: &BlockItems,
    row: &Tuple,
    locals: &Tuple,
) -> Result<Rows, AllocError>
    ensures { IfOk result (λ rows. rows_tree rows
        ≡ product
        (parts_of_items (map item_typed items.now) (row_tree row.now) (row_tree locals.now))) }
{
    match items.as_slice() {
        [first, rest @ ..] => joined_from(alloc, first, rest, room_of(items), row, locals),
        [] => one_empty(alloc),
    }
}

fn joined_from(
    alloc: Global,
    first: &BlockItem,
    rest: &[BlockItem],
    room: usize,
    row: &Tuple,
    locals: &Tuple,
) -> Result<Rows, AllocError>
    ensures { IfOk result (λ rows. rows_tree rows
        ≡ product
        (parts_of_items (item_typed first.now ∷ map item_typed rest.now)
        (row_tree row.now) (row_tree locals.now))) }
{
    let begun = begun(alloc, first, room, row, locals)?;
    let whole = with_items(alloc, begun, rest, row, locals)?;
    finished(alloc, whole)
}

// How many fields the items give, but no more than is worth asking for at once.
fn room_of(items: &BlockItems) -> usize {
    let mut room: u32 = 0;
    for item in items.as_slice() {
        room = room.saturating_add(item.width);
    }
    room.min(1024) as usize
}

// What the first item gives. The rows of a bag that was made for it are taken as they are.
fn begun(
    alloc: Global,
    item: &BlockItem,
    room: usize,
    row: &Tuple,
    locals: &Tuple,
) -> Result<Joining, AllocError>
    ensures { IfOk result (λ made. joining_rows made
        ≡ item_lists (item_typed item.now) (row_tree row.now) (row_tree locals.now)) }
{
    if !item.flatten {
        let v = eval(alloc, &item.value, row, locals)?;
        return first_value(alloc, v, room);
    }
    let seen = look(alloc, &item.value, row, locals)?;
    first_flattened(alloc, seen, item.width, room)
}

fn first_value(alloc: Global, v: Value, room: usize) -> Result<Joining, AllocError>
    ensures { IfOk result (λ made. joining_rows made ≡ (tree v ∷ []) ∷ []) }
{
    let start = starting(alloc, room)?;
    with_value(start, v)
}

fn first_flattened(
    alloc: Global,
    seen: Seen,
    width: u32,
    room: usize,
) -> Result<Joining, AllocError>
    ensures { IfOk result (λ made. joining_rows made ≡ flattened width (seen_tree seen.entry)) }
{
    match seen.into_made() {
        Ok(v) => first_made(alloc, v, width, room),
        Err(v) => first_lent(alloc, v, width, room),
    }
}

fn first_lent(alloc: Global, v: &Value, width: u32, room: usize) -> Result<Joining, AllocError>
    ensures { IfOk result (λ made. joining_rows made ≡ flattened width (tree v.now)) }
{
    let start = starting(alloc, room)?;
    with_flattened(alloc, start, v, width)
}

fn first_made(alloc: Global, v: Value, width: u32, room: usize) -> Result<Joining, AllocError>
    ensures { IfOk result (λ made. joining_rows made ≡ flattened width (tree v)) }
{
    match v.into_rows() {
        Ok(rows) => Ok(of_rows(alloc, rows, room)),
        Err(v) => first_lent(alloc, &v, width, room),
    }
}

fn of_rows(alloc: Global, rows: Rows, room: usize) -> Joining
    ensures { joining_rows result ≡ rows_tree rows }
{
    let tail = Seq::new(alloc);
    Joining { rows, tail, room }
}

fn with_items(
    alloc: Global,
    begun: Joining,
    items: &[BlockItem],
    row: &Tuple,
    locals: &Tuple,
) -> Result<Joining, AllocError>
    ensures { IfOk result (λ made. joining_rows made ≡ joined_on (joining_rows begun)
        (parts_of_items (map item_typed items.now) (row_tree row.now) (row_tree locals.now))) }
{
    let mut so_far = begun;
    for item in items {
        so_far = with_item(alloc, so_far, item, row, locals)?;
    }
    Ok(so_far)
}

fn with_item(
    alloc: Global,
    so_far: Joining,
    item: &BlockItem,
    row: &Tuple,
    locals: &Tuple,
) -> Result<Joining, AllocError>
    ensures { IfOk result (λ made. joining_rows made
        ≡ joined (joining_rows so_far)
        (item_lists (item_typed item.now) (row_tree row.now) (row_tree locals.now))) }
{
    if !item.flatten {
        let v = eval(alloc, &item.value, row, locals)?;
        return with_value(so_far, v);
    }
    let seen = look(alloc, &item.value, row, locals)?;
    with_flattened(alloc, so_far, value(&seen), item.width)
}

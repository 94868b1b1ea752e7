ghost use Rattle.std.specs.Prelude.{◌≡◌, ◌++◌, [], ◌∷◌, map, replicate, IfOk, IsTrue, OnOk};
ghost use Rattle.pig_value.specs.Trees.{row_tree, rows_tree, tree, v_null};
ghost use Rattle.pig_typed.specs.Blocks.{flattened};
ghost use Rattle.pig_typed.specs.Products.{joined};
ghost use Rattle.pig_nested.specs.Joinings.{joining_rows};

use pig_value::{Rows, Seq, Tuple, Value, copy};
use std::alloc::{AllocError, Global};

// Rows that go on with the same fields: each of `rows` with `tail` behind it. `room` is how many fields a whole row
// is to have.
//
// What has one list alone goes into `tail`, so that a row is copied again only where a bag has several tuples for it.
#[derive(Drop)]
pub struct Joining {
    pub rows: Rows,
    pub tail: Tuple,
    pub room: usize,
}

// One row without fields, as a joining.
pub fn starting(alloc: Global, room: usize) -> Result<Joining, AllocError>
    ensures { IfOk result (λ made. joining_rows made ≡ [] ∷ []) }
{
    let rows = one_empty(alloc)?;
    let tail = Seq::with_capacity(alloc, room)?;
    Ok(Joining { rows, tail, room })
}

// One row without fields.
pub fn one_empty(alloc: Global) -> Result<Rows, AllocError>
    ensures { IfOk result (λ made. rows_tree made ≡ [] ∷ []) }
{
    only(alloc, Seq::new(alloc))
}

// The rows before each list that FLATTEN of a value gives.
pub fn with_flattened(
    alloc: Global,
    joining: Joining,
    v: &Value,
    width: u32,
) -> Result<Joining, AllocError>
    ensures { IfOk result (λ made. joining_rows made
        ≡ joined (joining_rows joining) (flattened width (tree v.now))) }
{
    match v {
        Value::Tuple(fields) => with_fields(alloc, joining, fields),
        Value::Bag(rows) => with_rows(alloc, joining, rows),
        Value::Listed(rows) => with_rows(alloc, joining, rows),
        Value::Null => with_nulls(joining, width),
        _ => with_value(joining, copy(alloc, v)?),
    }
}

// The rows with a value behind each.
pub fn with_value(joining: Joining, v: Value) -> Result<Joining, AllocError>
    ensures { IfOk result (λ made. joining_rows made
        ≡ joined (joining_rows joining) ((tree v ∷ []) ∷ [])) }
{
    let Joining { rows, tail, room } = joining;
    let mut tail = tail;
    tail.push(v)?;
    Ok(Joining { rows, tail, room })
}

fn with_fields(alloc: Global, joining: Joining, fields: &Tuple) -> Result<Joining, AllocError>
    ensures { IfOk result (λ made. joining_rows made
        ≡ joined (joining_rows joining) (row_tree fields.now ∷ [])) }
{
    let Joining { rows, tail, room } = joining;
    let mut tail = tail;
    add_copies(alloc, &mut tail, fields)?;
    Ok(Joining { rows, tail, room })
}

fn with_nulls(joining: Joining, width: u32) -> Result<Joining, AllocError>
    ensures { IfOk result (λ made. joining_rows made
        ≡ joined (joining_rows joining) (replicate width v_null ∷ [])) }
{
    let Joining { rows, tail, room } = joining;
    let mut tail = tail;
    add_nulls(&mut tail, width)?;
    Ok(Joining { rows, tail, room })
}

fn with_rows(alloc: Global, joining: Joining, more: &Rows) -> Result<Joining, AllocError>
    ensures { IfOk result (λ made. joining_rows made
        ≡ joined (joining_rows joining) (rows_tree more.now)) }
{
    match more.as_slice() {
        [fields] => with_fields(alloc, joining, fields),
        _ => with_each(alloc, joining, more),
    }
}

fn with_each(alloc: Global, joining: Joining, more: &Rows) -> Result<Joining, AllocError>
    ensures { IfOk result (λ made. joining_rows made
        ≡ joined (joining_rows joining) (rows_tree more.now)) }
{
    let Joining { rows, tail, room } = joining;
    let rows = each_before_each(alloc, &rows, &tail, more, room)?;
    let tail = Seq::new(alloc);
    Ok(Joining { rows, tail, room })
}

// Each of the rows, then the fields, before each of the others.
fn each_before_each(
    alloc: Global,
    rows: &Rows,
    tail: &Tuple,
    more: &Rows,
    room: usize,
) -> Result<Rows, AllocError>
    ensures { IfOk result (λ made. rows_tree made
        ≡ joined (joined (rows_tree rows.now) (row_tree tail.now ∷ [])) (rows_tree more.now)) }
{
    let mut made = Seq::with_capacity(alloc, rows.len().saturating_mul(more.len()))?;
    for part in rows.as_slice() {
        add_before_each(alloc, &mut made, part, tail, more, room)?;
    }
    Ok(made)
}

fn add_before_each(
    alloc: Global,
    made: &mut Rows,
    row: &Tuple,
    tail: &Tuple,
    more: &Rows,
    room: usize,
) -> Result<(), AllocError>
    ensures { OnOk result (rows_tree made.new ≡ rows_tree made.old
        ++ map (λ y. (row_tree row.now ++ row_tree tail.now) ++ y) (rows_tree more.now)) }
{
    for fields in more.as_slice() {
        made.push(one_row(alloc, row, tail, fields, room)?)?;
    }
    Ok(())
}

// Three lists of fields in one row.
fn one_row(
    alloc: Global,
    row: &Tuple,
    tail: &Tuple,
    fields: &Tuple,
    room: usize,
) -> Result<Tuple, AllocError>
    ensures { IfOk result (λ made. row_tree made
        ≡ (row_tree row.now ++ row_tree tail.now) ++ row_tree fields.now) }
{
    let mut made = Seq::with_capacity(alloc, room)?;
    add_copies(alloc, &mut made, row)?;
    add_copies(alloc, &mut made, tail)?;
    add_copies(alloc, &mut made, fields)?;
    Ok(made)
}

fn add_copies(alloc: Global, row: &mut Tuple, fields: &Tuple) -> Result<(), AllocError>
    ensures { OnOk result (row_tree row.new ≡ row_tree row.old ++ row_tree fields.now) }
{
    for v in fields.as_slice() {
        row.push(copy(alloc, v)?)?;
    }
    Ok(())
}

fn add_nulls(row: &mut Tuple, width: u32) -> Result<(), AllocError>
    ensures { OnOk result (row_tree row.new ≡ row_tree row.old ++ replicate width v_null) }
{
    for _i in 0..width {
        row.push(Value::Null)?;
    }
    Ok(())
}

// The whole rows.
pub fn finished(alloc: Global, joining: Joining) -> Result<Rows, AllocError>
    ensures { IfOk result (λ made. rows_tree made ≡ joining_rows joining) }
{
    let Joining { rows, tail, .. } = joining;
    if tail.is_empty() {
        return Ok(rows);
    }
    if is_one_empty(&rows) {
        return only(alloc, tail);
    }
    each_before(alloc, rows, &tail)
}

// Whether there is one row, which has no fields.
fn is_one_empty(rows: &Rows) -> bool
    ensures { IsTrue result → rows_tree rows.now ≡ [] ∷ [] }
{
    match rows.as_slice() {
        [row] => row.is_empty(),
        _ => false,
    }
}

fn only(alloc: Global, row: Tuple) -> Result<Rows, AllocError>
    ensures { IfOk result (λ made. rows_tree made ≡ row_tree row ∷ []) }
{
    let mut rows = Seq::with_capacity(alloc, 1)?;
    rows.push(row)?;
    Ok(rows)
}

fn each_before(alloc: Global, rows: Rows, tail: &Tuple) -> Result<Rows, AllocError>
    ensures { IfOk result (λ made. rows_tree made
        ≡ joined (rows_tree rows) (row_tree tail.now ∷ [])) }
{
    let mut made = Seq::with_capacity(alloc, rows.len())?;
    for row in rows.into_vec() {
        made.push(extended(alloc, row, tail)?)?;
    }
    Ok(made)
}

fn extended(alloc: Global, row: Tuple, tail: &Tuple) -> Result<Tuple, AllocError>
    ensures { IfOk result (λ made. row_tree made ≡ row_tree row ++ row_tree tail.now) }
{
    let mut row = row;
    add_copies(alloc, &mut row, tail)?;
    Ok(row)
}

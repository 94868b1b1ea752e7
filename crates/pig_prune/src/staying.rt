ghost use Rattle.std.specs.Prelude.{◌≡◌, ◌∷◌, [], map, IfOk, OnOk};
ghost use Rattle.pig_cuts.specs.Plans.{all_stay, staying};
ghost use Rattle.pig_prune.specs.Pruned.{next_marks, next_stays};

use pig_value::{Column, Columns, Numbers, copy_kind};
use std::alloc::{AllocError, Global};

// Whether all marks are set.
pub fn all_stay(marks: &[bool]) -> bool
    ensures { result ≡ all_stay marks.now }
{
    let mut left = marks;
    while let [mark, rest @ ..] = left {
        if !*mark {
            return false;
        }
        left = rest;
    }
    true
}

// The columns that stay; those that no mark is left for do.
pub fn staying_columns(
    alloc: Global,
    marks: &[bool],
    columns: &[Column],
) -> Result<Columns, AllocError>
    ensures { IfOk result (λ made. made ≡ staying marks.now columns.now) }
{
    let mut made = Columns::new(alloc);
    let mut left = columns;
    let mut marked = marks;
    while let [column, rest @ ..] = left {
        if is_next(marked) {
            made.push(copy_column(alloc, column)?)?;
        }
        marked = behind(marked);
        left = rest;
    }
    Ok(made)
}

fn copy_column(alloc: Global, column: &Column) -> Result<Column, AllocError>
    ensures { IfOk result (λ made. made ≡ column.now) }
{
    let kind = copy_kind(alloc, &column.kind)?;
    Ok(Column {
        position: column.position,
        kind,
    })
}

// The numbers that stay.
pub fn staying_numbers(
    alloc: Global,
    marks: &[bool],
    numbers: &[u32],
) -> Result<Numbers, AllocError>
    ensures { IfOk result (λ made. made ≡ staying marks.now numbers.now) }
{
    let mut made = Numbers::new(alloc);
    let mut left = numbers;
    let mut marked = marks;
    while let [number, rest @ ..] = left {
        if is_next(marked) {
            made.push(*number)?;
        }
        marked = behind(marked);
        left = rest;
    }
    Ok(made)
}

// Whether the next element stays.
pub fn is_next(marks: &[bool]) -> bool
    ensures { result ≡ next_stays marks.now }
{
    match marks {
        [mark, ..] => *mark,
        [] => true,
    }
}

// The marks behind the next one.
pub fn behind(marks: &[bool]) -> &[bool]
    ensures { result.now ≡ next_marks marks.now }
{
    match marks {
        [_mark, rest @ ..] => rest,
        [] => marks,
    }
}

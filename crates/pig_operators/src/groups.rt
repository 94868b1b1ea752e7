ghost use Rattle.std.specs.Prelude.{◌≡◌, ◌<◌, ◌≤◌, length, map, IfOk, IsTrue};
ghost use Rattle.std.specs.List.{flat_map, range_with_len};
ghost use Rattle.pig_value.specs.Trees.{row_tree, rows_tree};
ghost use Rattle.pig_operators.specs.Groups.{HasOneEach, IsGroup, IsInput, group_entries};
ghost use Rattle.pig_operators.specs.Lent.{bags_in, rows_in};

use crate::places::{Group, Stretch};
use pig_runs::Run;
use pig_value::{Rows, Seq, Tuple};
use std::alloc::{AllocError, Global};

// Lists of rows.
pub type Bags = Seq<Rows>;

// The place behind the entries that have the key of the one at a place.
pub fn group_end(run: &Run, from: usize) -> usize
    requires { from < length run.now.entries }
    ensures { IsGroup run.now from result }
{
    let count = run.len();
    for end in from + 1..count {
        if !run.same_key(end, from) {
            return end;
        }
    }
    count
}

// The place behind the entries of an input, of those from a place up to another.
pub fn input_end(run: &Run, from: usize, end: usize, input: usize) -> usize
    requires order { from ≤ end }
    requires within { end ≤ length run.now.entries }
    ensures { IsInput run.now from end input result }
{
    for next in from..end {
        if run.input(next) as usize != input {
            return next;
        }
    }
    end
}

// The rows of these entries.
pub fn rows_of(alloc: Global, stretch: &Stretch<'_>) -> Result<Rows, AllocError>
    ensures { IfOk result (λ rows. rows_tree rows ≡ rows_in stretch.now) }
{
    let mut rows = Rows::with_capacity(alloc, stretch.end - stretch.from)?;
    for at in stretch.from..stretch.end {
        rows.push(stretch.run.row(alloc, at)?)?;
    }
    Ok(rows)
}

// The bags of the first inputs' rows in a group, one for each of so many inputs.
pub fn bags(alloc: Global, group: &Group<'_>, inputs: usize) -> Result<Bags, AllocError>
    ensures { IfOk result (λ bags. map rows_tree bags
        ≡ map (bags_in group.now) (range_with_len 0 inputs)) }
{
    let run = group.run;
    let mut bags = Bags::with_capacity(alloc, inputs)?;
    let mut at = group.from;
    for input in 0..inputs {
        let end = input_end(run, at, group.end, input);
        let own = Stretch { run, from: at, end };
        bags.push(rows_of(alloc, &own)?)?;
        at = end;
    }
    Ok(bags)
}

// The bag of the first input's rows in a group.
pub fn first_bag(alloc: Global, group: &Group<'_>) -> Result<Rows, AllocError>
    ensures { IfOk result (λ rows. rows_tree rows ≡ bags_in group.now 0) }
{
    let own = Stretch {
        run: group.run,
        from: group.from,
        end: input_end(group.run, group.from, group.end, 0),
    };
    rows_of(alloc, &own)
}

// Whether a group has one entry of each input, so that nothing repeats where its rows are joined.
pub fn has_one_each(group: &Group<'_>, inputs: usize) -> bool
    ensures { IsTrue result → HasOneEach group.now.run.now group.now.from group.now.end inputs }
{
    if group.end - group.from != inputs {
        return false;
    }
    for input in 0..inputs {
        if group.run.input(group.from + input) as usize != input {
            return false;
        }
    }
    true
}

// The fields of a group's rows, in one row.
pub fn one_row(alloc: Global, group: &Group<'_>) -> Result<Tuple, AllocError>
    ensures { IfOk result (λ row. row_tree row ≡ flat_map (λ e. e.row)
        (group_entries group.now.run.now group.now.from group.now.end)) }
{
    let mut row = Tuple::new(alloc);
    for at in group.from..group.end {
        row.extend(group.run.row(alloc, at)?)?;
    }
    Ok(row)
}

ghost use Rattle.std.specs.Prelude.{◌≡◌, ◌<◌, ◌≤◌, [], ◌∷◌, ◌++◌, length, IfOk, OnOk};
ghost use Rattle.pig_value.specs.Sorts.{Ascends};
ghost use Rattle.pig_value.specs.Trees.{row_tree, rows_tree, tree};
ghost use Rattle.pig_plan.specs.ByKey.{as_bag, gathered, join_of};
ghost use Rattle.pig_runs.specs.Entries.{run_cmp};
ghost use Rattle.pig_operators.specs.Given.{made, to_come};
ghost use Rattle.pig_operators.specs.Lent.{bags_in, key_in};

use crate::cogrouping::add_cogrouped;
use crate::groups::{first_bag, group_end};
use crate::joining::add_partners;
use crate::nulls::has_null;
use crate::outer::add_outer;
use crate::places::Group;
use pig_runs::Run;
use pig_value::{Rows, Seq, Side, Tuple, Value};
use std::alloc::{AllocError, Global};

/// An operator by key.
#[derive(Debug, Drop)]
pub enum Gathering {
    /// GROUP ALL, and GROUP by one input.
    Group,
    /// COGROUP, with a flag for each input: whether keys that it has no row of are left out.
    Cogroup {
        inner: Seq<bool>,
    },
    /// JOIN of so many inputs.
    Join {
        inputs: usize,
    },
    /// JOIN of two inputs so many fields wide, where rows of a side may stand without a partner.
    Outer {
        side: Side,
        left: usize,
        right: usize,
    },
}

/// The rows of an operator by key over the entries of a run. A refusal gives up the run.
pub fn gather(alloc: Global, how: &Gathering, run: Run) -> Result<Rows, AllocError>
    requires ascending { run.dirs ≡ [] }
    ensures { IfOk result (λ rows. rows_tree rows ≡ gathered (made how.now) run.entries) }
{
    let mut rows = Rows::new(alloc);
    let mut from = 0;
    'groups: while from < run.len() {
        from = add_next(alloc, how, &run, from, &mut rows)?;
    }
    Ok(rows)
}

// Adds the rows of the group that begins at a place, and says where it ends.
pub(crate) fn add_next(
    alloc: Global,
    how: &Gathering,
    run: &Run,
    from: usize,
    rows: &mut Rows,
) -> Result<usize, AllocError>
    requires ascending { run.now.dirs ≡ [] }
    requires sorted { ∥ Ascends (run_cmp run.now.dirs) run.now.entries ∥₁ }
    requires within { from < length run.now.entries }
    ensures rows { IfOk result (λ end. rows_tree rows.old ++ to_come how.now run.now from
        ≡ rows_tree rows.new ++ to_come how.now run.now end) }
    ensures order { IfOk result (λ end. from < end) }
    ensures within { IfOk result (λ end. end ≤ length run.now.entries) }
{
    let end = group_end(run, from);
    let group = Group { run, from, end };
    add_group(alloc, how, &group, rows)?;
    Ok(end)
}

// Adds the rows of a group.
fn add_group(
    alloc: Global,
    how: &Gathering,
    group: &Group<'_>,
    rows: &mut Rows,
) -> Result<(), AllocError>
    requires { group.now.run.now.dirs ≡ [] }
    ensures { OnOk result (rows_tree rows.new
        ≡ rows_tree rows.old ++ made how.now (key_in group.now) (bags_in group.now)) }
{
    let key = group.run.key(alloc, group.from)?;
    match how {
        Gathering::Group => rows.push(group_row(alloc, key, first_bag(alloc, group)?)?),
        Gathering::Join { inputs } => add_joined(alloc, &key, group, *inputs, rows),
        Gathering::Cogroup { inner } => add_cogrouped(alloc, key, group, inner.as_slice(), rows),
        Gathering::Outer { side, left, right } => {
            add_outer(alloc, &key, group, *side, *left, *right, rows)
        }
    }
}

// The key and the bag of its rows.
fn group_row(alloc: Global, key: Value, bag: Rows) -> Result<Tuple, AllocError>
    ensures { IfOk result (λ row. row_tree row ≡ tree key ∷ as_bag (rows_tree bag) ∷ []) }
{
    let mut row = Seq::with_capacity(alloc, 2)?;
    row.push(key)?;
    row.push(Value::Bag(bag))?;
    Ok(row)
}

// Adds the joined rows of a group.
fn add_joined(
    alloc: Global,
    key: &Value,
    group: &Group<'_>,
    inputs: usize,
    rows: &mut Rows,
) -> Result<(), AllocError>
    ensures { OnOk result (rows_tree rows.new
        ≡ rows_tree rows.old ++ join_of inputs (tree key.now) (bags_in group.now)) }
{
    if has_null(key) {
        return Ok(());
    }
    add_partners(alloc, group, inputs, rows)
}

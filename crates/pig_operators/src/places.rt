//! Entries of a run from a place up to another.

ghost use Rattle.std.specs.Prelude.{◌≤◌, length};
ghost use Rattle.pig_value.specs.Sorts.{Ascends};
ghost use Rattle.pig_runs.specs.Entries.{run_cmp};
ghost use Rattle.pig_operators.specs.Groups.{IsGroup};
ghost use Rattle.pig_operators.specs.OneGroup.{group_prop};

use pig_runs::Run;

// The entries from a place up to another.
#[derive(Drop)]
pub struct Stretch<'r> {
    pub run: &'r Run,
    pub from: usize,
    pub end: usize,
    ghost order: { from ≤ end },
    ghost within: { end ≤ length run.now.entries },
}

// The entries of a key, in a run whose entries ascend.
#[derive(Drop)]
pub struct Group<'r> {
    pub run: &'r Run,
    pub from: usize,
    pub end: usize,
    ghost whole: { IsGroup run.now from end } by { group_prop run.now from end },
    ghost sorted: { ∥ Ascends (run_cmp run.now.dirs) run.now.entries ∥₁ },
}

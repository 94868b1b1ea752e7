//! Stretches of entries that are lent.

ghost use Rattle.std.specs.Prelude.{◌≡◌, ◌≤◌, [], length};
ghost use Rattle.pig_operators.specs.Groups.{IsGroup};
ghost use Rattle.pig_operators.specs.OneGroup.{group_prop};

use pig_runs::Merged;

// The places from one up to another.
#[derive(Clone, Copy, Drop)]
pub(crate) struct Span {
    pub(crate) from: usize,
    pub(crate) end: usize,
}

// The entries from a place up to another.
#[derive(Drop)]
pub(crate) struct Stretch<'e, 'r> {
    pub(crate) entries: &'e Merged<'r>,
    pub(crate) from: usize,
    pub(crate) end: usize,
    ghost order: { from ≤ end },
    ghost within: { end ≤ length entries.now.entries },
}

// The entries of a key, where keys ascend.
#[derive(Drop)]
pub(crate) struct Group<'e, 'r> {
    pub(crate) entries: &'e Merged<'r>,
    pub(crate) from: usize,
    pub(crate) end: usize,
    ghost ascending: { entries.now.dirs ≡ [] },
    ghost whole: { IsGroup entries.now from end } by { group_prop entries.now from end },
}

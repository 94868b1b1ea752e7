//! Groups of entries that are lent.
ghost use Rattle.std.specs.Prelude.{◌<◌, length};
ghost use Rattle.pig_operators.specs.Groups.{IsGroup};

use pig_runs::Merged;

// The place behind the entries that have the key of the one at a place.
pub(crate) fn group_end(entries: &Merged, from: usize) -> usize
    requires { from < length entries.now.entries }
    ensures { IsGroup entries.now from result }
{
    let count = entries.len();
    for end in from + 1..count {
        if !entries.same_key(end, from) {
            return end;
        }
    }
    count
}

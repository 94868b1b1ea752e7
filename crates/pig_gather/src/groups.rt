ghost use Rattle.std.specs.Prelude.{◌≡◌, ◌<◌, ◌≤◌, ℕ, List, length, map, IfOk};
ghost use Rattle.std.specs.List.{AllByRecursion, range_with_len};
ghost use Rattle.pig_runs.specs.Entries.{AreKeyed};
ghost use Rattle.pig_operators.specs.Groups.{IsGroup, IsInput, rows_at};
ghost use Rattle.pig_gather.specs.Lent.{bags_in};
ghost use Rattle.pig_gather.specs.Spans.{IsSpan, rows_in};

use crate::lent::{Group, Span};
use pig_runs::Merged;
use std::alloc::{AllocError, Global};

// The place behind the entries that have the key of the one at a place.
pub(crate) fn group_end(entries: &Merged, from: usize) -> usize
    requires { from < length entries.now.entries }
    ensures { IsGroup entries.now from result }
{
    let count = entries.len();
    for end in from + 1..count {
        if !entries.same_key(end, from) {
            return end;
        }
    }
    count
}

// The place behind the entries of an input, of those from a place up to another.
pub(crate) fn input_end(entries: &Merged, from: usize, end: usize, input: usize) -> usize
    requires order { from ≤ end }
    requires within { end ≤ length entries.now.entries }
    ensures { IsInput entries.now from end input result }
{
    for next in from..end {
        if entries.input(next) as usize != input {
            return next;
        }
    }
    end
}

// The place behind the first input's entries of a group, whose rows are that input's bag.
pub(crate) fn first_end(group: &Group<'_, '_>) -> usize
    ensures order { group.now.from ≤ result }
    ensures within { result ≤ group.now.end }
    ensures bag { rows_at group.now.entries.now group.now.from result ≡ bags_in group.now 0 }
    ensures values { ∥ AreKeyed group.now.entries.now.dirs group.now.entries.now.entries ∥₁ }
{
    group.entries.len();
    input_end(group.entries, group.from, group.end, 0)
}

// The entries of each of the first so many inputs in a group, whose rows are the inputs' bags.
pub(crate) fn spans(
    alloc: Global,
    group: &Group<'_, '_>,
    inputs: usize,
) -> Result<Vec<Span>, AllocError>
    ensures within { IfOk result (λ spans.
        AllByRecursion (IsSpan group.now.entries.now) spans.items) }
    ensures bags { IfOk result (λ spans. map (rows_in group.now.entries.now) spans.items
        ≡ map (bags_in group.now) (range_with_len 0 inputs)) }
{
    group.entries.len();
    let mut spans = Vec::with_capacity(alloc, inputs)?;
    let mut at = group.from;
    for input in 0..inputs {
        let next = input_end(group.entries, at, group.end, input);
        spans.push(Span {
            from: at,
            end: next,
        })?;
        at = next;
    }
    Ok(spans)
}

ghost use Rattle.std.specs.Prelude.{◌≡◌, ◌==◌, IfOk};
ghost use Rattle.std.specs.List.{find, position_or_len};
ghost use Rattle.std.specs.Option.{is_some, option_copied, option_map};
ghost use Rattle.pig_plan.specs.Moves.{field_of};
ghost use Rattle.pig_typed.specs.Typed.{typed};
ghost use Rattle.pig_cuts.specs.Cuts.{cut_at, left_of, place_of};
ghost use Rattle.pig_cuts.specs.Fits.{left_of_field};
ghost use Rattle.pig_cuts.specs.Plans.{are_whole};

use crate::cutting::{Cut, KeptFields};
use pig_cuts::KeptField;
use pig_typed::TExpr;
use std::alloc::AllocError;

// The fields that are kept of a node's rows, where not all are.
pub fn cut_of(cuts: &[Cut], node: u32) -> Option<&KeptFields>
    ensures { option_copied result ≡ cut_at cuts.now node }
{
    match cuts.get(node as usize) {
        Some(Some(kept)) => Some(kept),
        _ => None,
    }
}

// How a field of a node's rows is left: not at all, whole, or as a bag of rows that are cut as
// those of a node.
pub fn left_of(cuts: &[Cut], node: u32, position: u32) -> Option<Option<u32>>
    ensures { result ≡ left_of (cut_at cuts.now node) position }
{
    match cut_of(cuts, node) {
        Some(kept) => left_among(kept.as_slice(), position),
        None => Some(None),
    }
}

fn left_among(kept: &[KeptField], position: u32) -> Option<Option<u32>>
    ensures { result ≡ option_map (λ f. f.like) (find (λ f. f.position == position) kept.now) }
{
    let mut left = kept;
    while let [field, rest @ ..] = left {
        if field.position == position {
            return Some(field.like);
        }
        left = rest;
    }
    None
}

// The position of a field among those that are left of a node's rows.
pub fn place_of(cuts: &[Cut], node: u32, position: u32) -> Result<u32, AllocError>
    ensures { IfOk result (λ place. place ≡ place_of (cut_at cuts.now node) position) }
{
    match cut_of(cuts, node) {
        Some(kept) => place_among(kept.as_slice(), position),
        None => Ok(position),
    }
}

fn place_among(kept: &[KeptField], position: u32) -> Result<u32, AllocError>
    ensures { IfOk result (λ place.
        place ≡ position_or_len (λ f. f.position == position) kept.now) }
{
    let mut place: u32 = 0;
    let mut left = kept;
    while let [field, rest @ ..] = left {
        if field.position == position {
            return Ok(place);
        }
        place = place.checked_add(1).ok_or(AllocError)?;
        left = rest;
    }
    Ok(place)
}

// Whether all of these nodes have all of their fields.
pub fn are_whole(cuts: &[Cut], nodes: &[u32]) -> bool
    ensures { result ≡ are_whole (cut_at cuts.now) nodes.now }
{
    let mut left = nodes;
    while let [node, rest @ ..] = left {
        if is_cut(cuts, *node) {
            return false;
        }
        left = rest;
    }
    true
}

// Whether not all fields of a node's rows are left.
fn is_cut(cuts: &[Cut], node: u32) -> bool
    ensures { result ≡ is_some (cut_at cuts.now node) }
{
    cut_of(cuts, node).is_some()
}

// How an operand is left that is a plain field of a node's rows.
pub fn left_of_operand(cuts: &[Cut], node: u32, e: &TExpr) -> Option<Option<u32>>
    ensures { result ≡ left_of_field (cut_at cuts.now node) (field_of (typed e.now)) }
{
    left_of_field(cuts, node, field_of(e))
}

fn left_of_field(cuts: &[Cut], node: u32, field: Option<u32>) -> Option<Option<u32>>
    ensures { result ≡ left_of_field (cut_at cuts.now node) field }
{
    match field {
        Some(position) => left_of(cuts, node, position),
        None => Some(None),
    }
}

fn field_of(e: &TExpr) -> Option<u32>
    ensures { result ≡ field_of (typed e.now) }
{
    match e {
        TExpr::Field(n) => Some(*n),
        _ => None,
    }
}

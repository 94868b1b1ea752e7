ghost use Rattle.std.specs.Prelude.{◌≡◌, ◌+◌, ◌&&◌, IfOk, map, nat_le, nat_lt};
ghost use Rattle.std.specs.List.{list_all};
ghost use Rattle.pig_plan.specs.Meaning.{width_at};
ghost use Rattle.pig_plan.specs.Plans.{keyed_of, plan_of};
ghost use Rattle.pig_moves.specs.Pushed.{is_open, opens, over_at, spot_of};

use pig_plan::{KeyedInput, KeyedInputs, Plan};
use pig_typed::copy_exprs;
use pig_value::Side;
use std::alloc::{AllocError, Global};

/// An input of a JOIN: its place among the inputs, its number, and its first column in the joined
/// rows.
#[derive(Debug, Clone, Copy, Drop)]
pub struct Spot {
    pub place: u32,
    pub input: u32,
    pub first: u32,
}

/// The input of a JOIN whose columns have all of these, where there is one.
pub fn find_spot(
    plan: &Plan,
    inputs: &[KeyedInput],
    fields: &[u32],
) -> Result<Option<Spot>, AllocError>
    ensures { IfOk result (λ found. found
        ≡ spot_of (width_at (plan_of plan.now)) fields.now 0 0 (map keyed_of inputs.now)) }
{
    let mut left = inputs;
    let (mut place, mut first): (u32, u32) = (0, 0);
    while let [input, rest @ ..] = left {
        let end = first
            .checked_add(width(plan, input.input)?)
            .ok_or(AllocError)?;
        if are_within(fields, first, end) {
            return Ok(Some(Spot {
                place,
                input: input.input,
                first,
            }));
        }
        place = place.checked_add(1).ok_or(AllocError)?;
        first = end;
        left = rest;
    }
    Ok(None)
}

// How many columns the rows of a node have.
fn width(plan: &Plan, node: u32) -> Result<u32, AllocError>
    ensures { IfOk result (λ n. n ≡ width_at (plan_of plan.now) node) }
{
    match plan.kinds(node) {
        Some(kinds) => u32::try_from(kinds.len()).map_err(|_| AllocError),
        None => Ok(0),
    }
}

fn are_within(fields: &[u32], first: u32, end: u32) -> bool
    ensures { result ≡ list_all (λ n. nat_le first n && nat_lt n end) fields.now }
{
    let mut left = fields;
    while let [n, rest @ ..] = left {
        if !(first <= *n && *n < end) {
            return false;
        }
        left = rest;
    }
    true
}

/// Whether the rows of this input all stand among the joined ones, or else with nulls for the
/// other side.
pub fn is_open(side: Side, spot: &Option<Spot>) -> bool
    ensures { result ≡ is_open side spot.now }
{
    match spot {
        Some(spot) => opens(side, spot.place),
        None => false,
    }
}

fn opens(side: Side, place: u32) -> bool
    ensures { result ≡ opens side place }
{
    match side {
        Side::Inner => true,
        Side::Left => place == 0,
        Side::Right => place == 1,
        Side::Full => false,
    }
}

/// The inputs with another node at one place.
pub fn over_at(
    alloc: Global,
    inputs: &[KeyedInput],
    place: u32,
    node: u32,
) -> Result<KeyedInputs, AllocError>
    ensures { IfOk result (λ made. map keyed_of made
        ≡ over_at node place 0 (map keyed_of inputs.now)) }
{
    let mut left = inputs;
    let mut own: u32 = 0;
    let mut made = KeyedInputs::new(alloc);
    while let [input, rest @ ..] = left {
        let keys = copy_exprs(alloc, &input.keys)?;
        made.push(KeyedInput {
            input: if own == place { node } else { input.input },
            keys,
            inner: input.inner,
        })?;
        own = own.checked_add(1).ok_or(AllocError)?;
        left = rest;
    }
    Ok(made)
}

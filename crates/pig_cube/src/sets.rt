ghost use Rattle.std.specs.Prelude.{◌≡◌, ◌∷◌, ◌<◌, ◌≤◌, [], ◌↔◌, length, map, take, IfOk, IsTrue};
ghost use Rattle.std.specs.List.{AllByRecursion};
ghost use Rattle.pig_cube.specs.Dimensions.{AreDimensions, AreDistinct, chosen_sets, is_in, other_positions, prefixes, subsets};

use pig_value::{Positions, Seq};
use std::alloc::{AllocError, Global};

// Sets of dimensions, by their positions.
pub type Sets = Seq<Positions>;

const MOST_DIMENSIONS: usize = 8;

const MOST_FIELDS: u32 = 512;

/// Whether these are 1 to 8 distinct positions in rows of so many fields, which are 512 at most.
pub fn are_dimensions(dims: &Positions, width: u32) -> bool
    ensures { IsTrue result ↔ AreDimensions dims.now width }
{
    if dims.is_empty() {
        return false;
    }
    if dims.len() > MOST_DIMENSIONS {
        return false;
    }
    if width > MOST_FIELDS {
        return false;
    }
    if !are_below(dims.as_slice(), width) {
        return false;
    }
    are_distinct(dims.as_slice())
}

fn are_below(positions: &[u32], width: u32) -> bool
    ensures { IsTrue result ↔ AllByRecursion (λ p. p < width) positions.now }
{
    let mut left = positions;
    while let [first, rest @ ..] = left {
        if *first >= width {
            return false;
        }
        left = rest;
    }
    true
}

fn are_distinct(positions: &[u32]) -> bool
    ensures { IsTrue result ↔ AreDistinct positions.now }
{
    let mut left = positions;
    while let [first, rest @ ..] = left {
        if is_in(rest, *first) {
            return false;
        }
        left = rest;
    }
    true
}

/// Whether a position stands among these.
pub fn is_in(positions: &[u32], position: u32) -> bool
    ensures { result ≡ is_in positions.now position }
{
    let mut left = positions;
    while let [first, rest @ ..] = left {
        if *first == position {
            return true;
        }
        left = rest;
    }
    false
}

/// The other positions of a row, in order.
pub fn other_positions(alloc: Global, dims: &[u32], width: u32) -> Result<Positions, AllocError>
    ensures { IfOk result (λ others. others ≡ other_positions dims.now width) }
{
    let mut others = Seq::new(alloc);
    for position in 0..width {
        if is_in(dims, position) {
            continue;
        }
        others.push(position)?;
    }
    Ok(others)
}

// The sets that CUBE or ROLLUP chooses of the dimensions.
pub fn chosen_sets(alloc: Global, dims: &[u32], rollup: bool) -> Result<Sets, AllocError>
    ensures { IfOk result (λ sets. sets ≡ chosen_sets rollup dims.now) }
{
    if rollup {
        prefixes(alloc, dims)
    } else {
        subsets(alloc, dims)
    }
}

fn prefixes(alloc: Global, positions: &[u32]) -> Result<Sets, AllocError>
    ensures { IfOk result (λ sets. sets ≡ prefixes positions.now) }
{
    let mut sets = Seq::new(alloc);
    let count = positions.len() + 1;
    for n in 0..count {
        sets.push(prefix(alloc, positions, n)?)?;
    }
    Ok(sets)
}

// The first positions.
fn prefix(alloc: Global, positions: &[u32], count: usize) -> Result<Positions, AllocError>
    requires { count ≤ length positions.now }
    ensures { IfOk result (λ prefix. prefix ≡ take count positions.now) }
{
    copied(alloc, &positions[..count])
}

// All subsets, by those of the positions behind the first: each with the first in front, and each as it is.
fn subsets(alloc: Global, positions: &[u32]) -> Result<Sets, AllocError>
    ensures { IfOk result (λ sets. sets ≡ subsets positions.now) }
{
    let mut sets = Seq::new(alloc);
    let [first, rest @ ..] = positions else {
        sets.push(Seq::new(alloc))?;
        return Ok(sets);
    };
    let others = subsets(alloc, rest)?;
    for set in others.as_slice() {
        sets.push(with_first(alloc, *first, set.as_slice())?)?;
    }
    sets.extend(others)?;
    Ok(sets)
}

fn with_first(alloc: Global, first: u32, rest: &[u32]) -> Result<Positions, AllocError>
    ensures { IfOk result (λ set. set ≡ first ∷ rest.now) }
{
    let mut set = Seq::new(alloc);
    set.push(first)?;
    set.extend(copied(alloc, rest)?)?;
    Ok(set)
}

fn copied(alloc: Global, positions: &[u32]) -> Result<Positions, AllocError>
    ensures { IfOk result (λ copy. copy ≡ positions.now) }
{
    Ok(Seq::from_vec(Vec::from_slice(alloc, positions)?))
}

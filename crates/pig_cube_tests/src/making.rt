//! Dimensions and blocks for tests. Where memory is wanting the process ends: that drops nothing, so its proof is short.
use pig_cube::{are_dimensions, expand};
use pig_typed::Block;
use pig_value::{Positions, Seq};
use std::alloc::Global;
use std::process::Abort;

/// Adds to a list.
pub fn push<R: Abort, T: Drop>(rt: &R, list: &mut Seq<T>, item: T) {
    list.push(item).expect(rt, "memory");
}

/// Positions, each a digit.
pub fn positions<R: Abort>(rt: &R, alloc: Global, digits: &str) -> Positions {
    let mut positions = Seq::new(alloc);
    for digit in digits.bytes() {
        push(rt, &mut positions, u32::from(digit.saturating_sub(b'0')));
    }
    positions
}

/// The block of a cube, or of a rollup, by these dimensions; none where they are no dimensions.
pub fn block_of<R: Abort>(
    rt: &R,
    alloc: Global,
    digits: &str,
    width: u32,
    rollup: bool,
) -> Option<Block> {
    let dims = positions(rt, alloc, digits);
    if !are_dimensions(&dims, width) {
        return None;
    }
    Some(expand(alloc, &dims, width, rollup).expect(rt, "memory"))
}

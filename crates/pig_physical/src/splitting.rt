//! The splits of an input.
ghost use Rattle.std.specs.Prelude.{◌≡◌, ◌<◌, ◌≤◌, ◌+◌, ◌*◌, ◌++◌, IfOk, OnOk};
ghost use Rattle.pig_storage.specs.Splits.{split_at, split_count, splits_of, splits_of_piece};

use pig_storage::{Split, Splits};
use pig_value::Lengths;
use std::alloc::{AllocError, Global};

/// The splits of an input with pieces of these lengths, piece by piece: each has `split` bytes, the last one of a piece
/// may have fewer, and an empty piece has one split.
pub fn splits(alloc: Global, sizes: &Lengths, split: u64) -> Result<Splits, AllocError>
    requires { 0 < split }
    ensures { IfOk result (λ found. found ≡ splits_of split sizes.now) }
{
    let mut found = Splits::new(alloc);
    let mut piece: u32 = 0;
    let mut left = sizes.as_slice();
    while let [size, rest @ ..] = left {
        add_splits(split, piece, *size, &mut found)?;
        piece = next_piece(piece)?;
        left = rest;
    }
    Ok(found)
}

// Pieces are numbered in 32 bits.
fn next_piece(piece: u32) -> Result<u32, AllocError>
    ensures { IfOk result (λ next. next ≡ piece + 1) }
{
    match piece.checked_add(1) {
        Some(next) => Ok(next),
        None => Err(AllocError),
    }
}

// The splits of one piece.
fn add_splits(split: u64, piece: u32, size: u64, found: &mut Splits) -> Result<(), AllocError>
    requires { 0 < split }
    ensures { OnOk result (found.new ≡ found.old ++ splits_of_piece split piece size) }
{
    for at in 0..split_count(split, size) {
        found.push(split_at(split, piece, size, at))?;
    }
    Ok(())
}

/// How many splits cover a piece of a size.
pub fn split_count(split: u64, size: u64) -> u64
    requires { 0 < split }
    ensures { result ≡ split_count split size }
{
    size.div_ceil(split).max(1)
}

fn split_at(split: u64, piece: u32, size: u64, at: u64) -> Split
    requires { at * split ≤ size }
    ensures { result ≡ split_at split piece size at }
{
    let from = at * split;
    Split {
        piece,
        from,
        to: from.saturating_add(split).min(size),
    }
}

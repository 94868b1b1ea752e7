ghost use Rattle.std.specs.Prelude.{◌≡◌, ◌<◌, ◌^◌, ◌∷◌, ◌++◌, [], length, map, IfOk, OnOk};
ghost use Rattle.pig_typed.specs.Typed.{block_typed, item_typed, typed};
ghost use Rattle.pig_cube.specs.Dimensions.{AreDimensions, other_positions};
ghost use Rattle.pig_cube.specs.Expanding.{expanded_block, flat_item, known_field, null_text, plain_item, set_tuple, slot};

use crate::sets::{Sets, chosen_sets, is_in, other_positions};
use pig_typed::{Block, BlockItem, BlockItems, TExpr, TExprs};
use pig_value::{Boxed, Function, Kind, Positions, Seq, Text};
use std::alloc::{AllocError, Global};

/// The block of a FOREACH that makes the rows of a cube, of rows that are `width` fields wide, by the dimensions at these
/// positions: with `rollup` for each prefix of their list, and otherwise for each set of them.
///
/// Each row that it makes is the dimensions, null where not in the set and the text `unknown` where null before, and then the
/// other fields in order. The positions are 1 to 8 and distinct, and rows are 512 fields wide at most; that can be tested by
/// [`are_dimensions`](crate::are_dimensions). Only memory can be wanting.
pub fn expand(
    alloc: Global,
    dims: &Positions,
    width: u32,
    rollup: bool,
) -> Result<Block, AllocError>
    requires { AreDimensions dims.now width }
    ensures { IfOk result (λ block. block_typed block ≡ expanded_block dims.now width rollup) }
{
    let sets = chosen_sets(alloc, dims.as_slice(), rollup)?;
    let mut items = Seq::new(alloc);
    items.push(flat_item(alloc, dims, &sets)?)?;
    items.extend(plain_items(alloc, dims, width)?)?;
    Ok(Block {
        steps: Seq::new(alloc),
        items,
    })
}

// FLATTEN of the bag of a tuple for each set.
fn flat_item(alloc: Global, dims: &Positions, sets: &Sets) -> Result<BlockItem, AllocError>
    requires { length dims.now < 2 ^ 32 }
    ensures { IfOk result (λ item. item_typed item ≡ flat_item dims.now sets.now) }
{
    let width = dims.len() as u32;
    let args = tuples(alloc, dims, sets)?;
    let function = Function::ToBag { width: Some(width) };
    Ok(BlockItem {
        value: TExpr::Call { function, args },
        flatten: true,
        width,
    })
}

fn tuples(alloc: Global, dims: &Positions, sets: &Sets) -> Result<TExprs, AllocError>
    ensures { IfOk result (λ tuples. map typed tuples ≡ map (set_tuple dims.now) sets.now) }
{
    let mut tuples = Seq::new(alloc);
    for set in sets.as_slice() {
        tuples.push(set_tuple(alloc, dims, set)?)?;
    }
    Ok(tuples)
}

fn set_tuple(alloc: Global, dims: &Positions, set: &Positions) -> Result<TExpr, AllocError>
    ensures { IfOk result (λ tuple. typed tuple ≡ set_tuple dims.now set.now) }
{
    let args = slots(alloc, dims, set)?;
    let function = Function::ToTuple;
    Ok(TExpr::Call { function, args })
}

fn slots(alloc: Global, dims: &Positions, set: &Positions) -> Result<TExprs, AllocError>
    ensures { IfOk result (λ slots. map typed slots ≡ map (slot set.now) dims.now) }
{
    let mut slots = Seq::new(alloc);
    for position in dims.as_slice() {
        slots.push(slot(alloc, set, *position)?)?;
    }
    Ok(slots)
}

// A dimension in the tuple of a set.
fn slot(alloc: Global, set: &Positions, position: u32) -> Result<TExpr, AllocError>
    ensures { IfOk result (λ e. typed e ≡ slot set.now position) }
{
    if is_in(set.as_slice(), position) {
        known_field(alloc, position)
    } else {
        null_text(alloc)
    }
}

// The field, or the text `unknown` where it is null.
fn known_field(alloc: Global, position: u32) -> Result<TExpr, AllocError>
    ensures { IfOk result (λ e. typed e ≡ known_field position) }
{
    let unknown = TExpr::Chars(Text::from_str(alloc, "unknown")?);
    let yes = Boxed::new(alloc, unknown)?;
    let a = Boxed::new(alloc, TExpr::Field(position))?;
    let no = Boxed::new(alloc, TExpr::Field(position))?;
    let cond = Boxed::new(alloc, TExpr::IsNull { a, not: false })?;
    Ok(TExpr::Choose { cond, yes, no })
}

// A null of kind chararray.
fn null_text(alloc: Global) -> Result<TExpr, AllocError>
    ensures { IfOk result (λ e. typed e ≡ null_text) }
{
    let a = Boxed::new(alloc, TExpr::Null)?;
    let to = Kind::Chararray;
    Ok(TExpr::Cast { to, a })
}

// The other fields, each as it is.
fn plain_items(alloc: Global, dims: &Positions, width: u32) -> Result<BlockItems, AllocError>
    ensures { IfOk result (λ items. map item_typed items
        ≡ map plain_item (other_positions dims.now width)) }
{
    let others = other_positions(alloc, dims.as_slice(), width)?;
    let mut items = Seq::new(alloc);
    for position in others.as_slice() {
        items.push(plain_item(*position))?;
    }
    Ok(items)
}

fn plain_item(position: u32) -> BlockItem
    ensures { item_typed result ≡ plain_item position }
{
    BlockItem {
        value: TExpr::Field(position),
        flatten: false,
        width: 1,
    }
}

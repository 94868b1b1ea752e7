//! Paths that only choose fields of their source's rows.
ghost use Rattle.std.specs.Prelude.{◌≡◌, [], ◌∷◌, false, get_or, map, List, IfOk, IfSome, IsFalse};
ghost use Rattle.std.specs.Option.{option_map};
ghost use Rattle.pig_value.specs.Trees.{Tree};
ghost use Rattle.pig_keycode.specs.Keys.{fields_at};
ghost use Rattle.pig_typed.specs.Blocks.{foreach_all, item_lists};
ghost use Rattle.pig_typed.specs.Products.{product};
ghost use Rattle.pig_typed.specs.Typed.{block_typed, item_typed};
ghost use Rattle.pig_plan.specs.Nodes.{op_at};
ghost use Rattle.pig_plan.specs.Plans.{op_of, p_foreach, plan_of};
ghost use Rattle.pig_plan.specs.Steps.{step_rows};
ghost use Rattle.pig_stream.specs.Stepping.{marked_folding};
ghost use Rattle.pig_map.specs.Choosing.{Chooses, ChoosesAt, ChoosesBy, PlaceIs, PlacesAre, chosen_rows};

use pig_plan::{Node, NodeOp};
use pig_typed::{Block, BlockItem, TExpr};
use std::alloc::{AllocError, Global};

// The fields of rows: all of them, or those at places.
#[derive(Drop)]
pub enum Chosen {
    All,
    At(Vec<u32>),
}

impl Chosen {
    // The places, where these are not all.
    pub fn places(&self) -> Option<&[u32]>
        ensures { PlacesAre self.now result }
    {
        match self {
            Chosen::All => None,
            Chosen::At(places) => Some(places.as_slice()),
        }
    }
}

// The place of the field that an item is, where it is one.
fn item_place(item: &BlockItem) -> Option<u32>
    ensures { IfSome result (λ place. PlaceIs place (item_typed item.now)) }
{
    if item.flatten {
        return None;
    }
    match &item.value {
        TExpr::Field(place) => Some(*place),
        _ => None,
    }
}

// The places of the fields that items are, where each is one.
fn item_places(alloc: Global, items: &[BlockItem]) -> Result<Option<Vec<u32>>, AllocError>
    ensures { IfOk result (λ found. IfSome found (λ places. (row locals : List Tree)
        → product (map (λ item. item_lists item row locals) (map item_typed items.now))
        ≡ fields_at places.items row ∷ [])) }
{
    let mut places = Vec::new(alloc);
    let mut left = items;
    while let [item, rest @ ..] = left {
        let Some(place) = item_place(item) else {
            return Ok(None);
        };
        places.push(place)?;
        left = rest;
    }
    Ok(Some(places))
}

fn has_steps(block: &Block) -> bool
    ensures { IsFalse result → (block_typed block.now).steps ≡ [] }
{
    !block.steps.as_slice().is_empty()
}

fn items_of(block: &Block) -> &[BlockItem]
    ensures { map item_typed result.now ≡ (block_typed block.now).items }
{
    block.items.as_slice()
}

// The places of the fields that a FOREACH chooses, where it does nothing else.
fn block_places(alloc: Global, block: &Block) -> Result<Option<Vec<u32>>, AllocError>
    ensures { IfOk result (λ found. IfSome found (λ places. (rows : List (List Tree))
        → foreach_all (block_typed block.now) rows ≡ map (fields_at places.items) rows)) }
{
    if has_steps(block) {
        return Ok(None);
    }
    item_places(alloc, items_of(block))
}

fn is_marked(marks: &[bool], number: u32) -> bool
    ensures { result ≡ get_or marks.now number false }
{
    match marks.get(number as usize) {
        Some(mark) => *mark,
        None => false,
    }
}

// What a FOREACH chooses of what was chosen before; of fields at places nothing is chosen once more.
fn then_block(alloc: Global, block: &Block, chosen: Chosen) -> Result<Option<Chosen>, AllocError>
    ensures { IfOk result (λ found. IfSome found (λ next. (rows : List (List Tree))
        → foreach_all (block_typed block.now) (chosen_rows chosen rows) ≡ chosen_rows next rows)) }
{
    match chosen {
        Chosen::All => match block_places(alloc, block)? {
            Some(places) => Ok(Some(Chosen::At(places))),
            None => Ok(None),
        },
        Chosen::At(_) => Ok(None),
    }
}

// What a FOREACH chooses of what was chosen before: all of it, where it stands on a node that folds.
fn then_foreach(
    alloc: Global,
    input: u32,
    block: &Block,
    folded: &[bool],
    chosen: Chosen,
) -> Result<Option<Chosen>, AllocError>
    ensures { IfOk result (λ found. IfSome found (λ next. (rows : List (List Tree))
        → step_rows (marked_folding folded.now) (p_foreach input (block_typed block.now))
        (chosen_rows chosen rows) ≡ chosen_rows next rows)) }
{
    if is_marked(folded, input) {
        return Ok(Some(chosen));
    }
    then_block(alloc, block, chosen)
}

// What an operator chooses of what was chosen before.
fn then_op(
    alloc: Global,
    op: &NodeOp,
    folded: &[bool],
    chosen: Chosen,
) -> Result<Option<Chosen>, AllocError>
    ensures { IfOk result (λ found. IfSome found
        (ChoosesBy (marked_folding folded.now) (op_of op.now) chosen)) }
{
    match op {
        NodeOp::Foreach { input, block } => then_foreach(alloc, *input, block, folded, chosen),
        NodeOp::Union { .. } => Ok(Some(chosen)),
        NodeOp::Store { .. } => Ok(Some(chosen)),
        _ => Ok(None),
    }
}

fn op_in<'p>(nodes: &'p [Node], number: u32) -> Option<&'p NodeOp>
    ensures { option_map (λ op. op_of op.now) result ≡ op_at (plan_of nodes.now) number }
{
    match nodes.get(number as usize) {
        Some(node) => Some(&node.op),
        None => None,
    }
}

// What a node chooses of what was chosen before.
fn then_node(
    alloc: Global,
    nodes: &[Node],
    folded: &[bool],
    number: u32,
    chosen: Chosen,
) -> Result<Option<Chosen>, AllocError>
    ensures { IfOk result (λ found. IfSome found
        (ChoosesAt (marked_folding folded.now) (plan_of nodes.now) number chosen)) }
{
    match op_in(nodes, number) {
        Some(op) => then_op(alloc, op, folded, chosen),
        None => Ok(None),
    }
}

// The fields that a path chooses of its source's rows, where it does nothing else.
pub fn chosen_on(
    alloc: Global,
    nodes: &[Node],
    folded: &[bool],
    path: &[u32],
) -> Result<Option<Chosen>, AllocError>
    ensures { IfOk result (λ found. IfSome found
        (Chooses (marked_folding folded.now) (plan_of nodes.now) path.now)) }
{
    let mut chosen = Chosen::All;
    let mut left = path;
    while let [number, rest @ ..] = left {
        match then_node(alloc, nodes, folded, *number, chosen)? {
            Some(next) => chosen = next,
            None => return Ok(None),
        }
        left = rest;
    }
    Ok(Some(chosen))
}

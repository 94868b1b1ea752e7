ghost use Rattle.std.specs.Prelude.{◌≡◌, ◌+◌, ◌++◌, ◌∷◌, [], IfOk, length, map};
ghost use Rattle.std.specs.Option.{option_map};
ghost use Rattle.pig_typed.specs.Typed.{block_typed};
ghost use Rattle.pig_plan.specs.Plans.{op_of};
ghost use Rattle.pig_typing.specs.Results.{Tells};
ghost use Rattle.pig_relations.specs.Unions.{union_input_tree, union_tree};
ghost use Rattle.pig_check.specs.Unions.{input_number, input_numbers, next_behind, union_at, united, widening_ops, widenings};
ghost use Rattle.pig_check.specs.Views.{added_tree, state_tree};

use crate::state::{Addition, NodeOps, Progress, behind, next_number};
use crate::statements::given_one;
use pig_plan::NodeOp;
use pig_relations::{SharedSchema, TypedUnion, UnionInput, UnionInputs, type_union};
use pig_syntax::Names;
use pig_typing::TypeFault;
use pig_value::{Numbers, Seq, Text};
use std::alloc::{AllocError, Global};

// UNION, with a FOREACH before it for each input that widens.
#[tactic(auto, unfolding(crate::specs::Unions::union_at))]
pub fn union(
    alloc: Global,
    state: &Progress,
    alias: &Text,
    onschema: bool,
    from: &Names,
) -> Result<Addition, TypeFault>
    ensures { Tells added_tree (union_at (state_tree state.now) alias.now onschema from.now)
        result }
{
    let next = next_number(&state.plan)?;
    let typed = type_union(alloc, &state.relations, onschema, from.as_slice())?;
    Ok(united(alloc, next, alias, typed)?)
}

fn united(alloc: Global, next: u32, alias: &Text, typed: TypedUnion) -> Result<Addition, AllocError>
    ensures { IfOk result (λ a. added_tree a ≡ united next alias.now (union_tree typed)) }
{
    let TypedUnion { inputs, columns } = typed;
    let Widened { ops, inputs, node } = all_inputs(alloc, next, inputs)?;
    let columns = SharedSchema::new(alloc, columns)?;
    let given = given_one(alloc, alias, node, columns)?;
    let mut ops = ops;
    ops.push(NodeOp::Union { inputs })?;
    Ok(Addition { ops, given })
}

// The nodes before a UNION, the numbers of its inputs, and its own number.
#[derive(Drop)]
pub struct Widened {
    pub ops: NodeOps,
    pub inputs: Numbers,
    pub node: u32,
}

fn all_inputs(alloc: Global, next: u32, inputs: UnionInputs) -> Result<Widened, AllocError>
    ensures ops { IfOk result (λ w. map op_of w.ops ≡ widenings (map union_input_tree inputs)) }
    ensures inputs { IfOk result (λ w. w.inputs
        ≡ input_numbers next (map union_input_tree inputs)) }
    ensures node { IfOk result (λ w. w.node
        ≡ next + length (widenings (map union_input_tree inputs))) }
{
    let mut so_far = Widened {
        ops: Seq::new(alloc),
        inputs: Seq::new(alloc),
        node: next,
    };
    for input in inputs.into_vec() {
        so_far = with_input(so_far, input)?;
    }
    Ok(so_far)
}

// One input more, with its FOREACH before it where it widens.
fn with_input(so_far: Widened, input: UnionInput) -> Result<Widened, AllocError>
    ensures ops { IfOk result (λ w. map op_of w.ops ≡ map op_of so_far.ops
        ++ widening_ops input.node (option_map block_typed input.widening)) }
    ensures inputs { IfOk result (λ w. w.inputs ≡ so_far.inputs
        ++ input_number so_far.node input.node (option_map block_typed input.widening) ∷ []) }
    ensures node { IfOk result (λ w. w.node
        ≡ next_behind so_far.node (option_map block_typed input.widening)) }
{
    let Widened {
        mut ops,
        mut inputs,
        node,
    } = so_far;
    let UnionInput {
        node: from,
        widening,
    } = input;
    match widening {
        Some(block) => {
            ops.push(NodeOp::Foreach { input: from, block })?;
            inputs.push(node)?;
            let node = behind(node)?;
            Ok(Widened { ops, inputs, node })
        }
        None => {
            inputs.push(from)?;
            Ok(Widened { ops, inputs, node })
        }
    }
}

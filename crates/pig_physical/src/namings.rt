//! Which nodes are named once, told of all in one pass.
ghost use Rattle.std.specs.Prelude.{◌≡◌, ◌<◌, ◌==◌, ◌++◌, get_or, length, ℕ, IfOk, OnOk, if◌then◌else◌};
ghost use Rattle.std.specs.List.{AllByRecursion};
ghost use Rattle.pig_plan.specs.Nodes.{live};
ghost use Rattle.pig_plan.specs.Plans.{plan_of};
ghost use Rattle.pig_plan.specs.Valid.{IsPlan};
ghost use Rattle.pig_physical.specs.Heading.{inputs_at};
ghost use Rattle.pig_physical.specs.Naming.{AreNamings, and_named, named_in};
ghost use Rattle.pig_physical.specs.declared.namings.Naming.TheVariants as Namings;

use pig_plan::Node;
use pig_value::Numbers;
use std::alloc::{AllocError, Global};

// How often nodes name a node, and the one that does where it is one.
#[derive(Clone, Copy, Drop)]
pub enum Naming {
    Never,
    Once(usize),
    Often,
}

// Of each node, in order, how often these nodes name it.
pub fn namings(alloc: Global, nodes: &[Node], users: &[usize]) -> Result<Vec<Naming>, AllocError>
    requires valid { IsPlan (plan_of nodes.now) }
    requires live { users.now ≡ live (plan_of nodes.now) }
    ensures { IfOk result (λ found. AreNamings (plan_of nodes.now) found.items) }
{
    let mut found = vec![in alloc; Naming::Never; nodes.len()]?;
    let mut left = users;
    while let [user, rest @ ..] = left {
        note_inputs(alloc, nodes, *user, &mut found)?;
        left = rest;
    }
    Ok(found)
}

fn note_inputs(
    alloc: Global,
    nodes: &[Node],
    user: usize,
    found: &mut Vec<Naming>,
) -> Result<(), AllocError>
    requires valid { IsPlan (plan_of nodes.now) }
    requires size { length found.old.items ≡ length nodes.now }
    ensures size { OnOk result (length found.new.items ≡ length found.old.items) }
    ensures each { OnOk result ((k : ℕ) → get_or found.new.items k Namings.Never ≡ named_in k user
        (inputs_at (plan_of nodes.now) user) (get_or found.old.items k Namings.Never)) }
{
    let inputs = inputs_within(alloc, nodes, user)?;
    note_all(user, inputs.as_slice(), found);
    Ok(())
}

// The inputs of a node, none of one that there isn't.
fn inputs_within(alloc: Global, nodes: &[Node], user: usize) -> Result<Numbers, AllocError>
    requires { IsPlan (plan_of nodes.now) }
    ensures is { IfOk result (λ inputs. inputs ≡ inputs_at (plan_of nodes.now) user) }
    ensures within { IfOk result (λ inputs. AllByRecursion (λ i. i < length nodes.now) inputs) }
{
    let mut inputs = Numbers::new(alloc);
    add_inputs(alloc, nodes, user, &mut inputs)?;
    Ok(inputs)
}

fn add_inputs(
    alloc: Global,
    nodes: &[Node],
    user: usize,
    inputs: &mut Numbers,
) -> Result<(), AllocError>
    ensures { OnOk result (inputs.new ≡ inputs.old ++ inputs_at (plan_of nodes.now) user) }
{
    match nodes.get(user) {
        Some(node) => inputs.extend(node.op.inputs(alloc)?),
        None => Ok(()),
    }
}

fn note_all(user: usize, inputs: &[u32], found: &mut Vec<Naming>)
    requires { AllByRecursion (λ i. i < length found.old.items) inputs.now }
    ensures size { length found.new.items ≡ length found.old.items }
    ensures each { (k : ℕ) → get_or found.new.items k Namings.Never
        ≡ named_in k user inputs.now (get_or found.old.items k Namings.Never) }
{
    let mut left = inputs;
    while let [input, rest @ ..] = left {
        note_one(user, *input as usize, found);
        left = rest;
    }
}

fn note_one(user: usize, input: usize, found: &mut Vec<Naming>)
    requires { input < length found.old.items }
    ensures size { length found.new.items ≡ length found.old.items }
    ensures each { (k : ℕ) → get_or found.new.items k Namings.Never ≡ (if input == k
        then and_named user (get_or found.old.items k Namings.Never)
        else get_or found.old.items k Namings.Never) }
{
    found[input] = and_named(user, found[input]);
}

fn and_named(user: usize, naming: Naming) -> Naming
    ensures { result ≡ and_named user naming }
{
    match naming {
        Naming::Never => Naming::Once(user),
        Naming::Once(_) => Naming::Often,
        Naming::Often => Naming::Often,
    }
}

// How often a node is named.
pub fn naming_at(namings: &[Naming], number: usize) -> Naming
    ensures { result ≡ get_or namings.now number Namings.Never }
{
    match namings.get(number) {
        Some(naming) => *naming,
        None => Naming::Never,
    }
}

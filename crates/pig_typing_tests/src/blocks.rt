//! What no clause says of `type_foreach`: that a nested block of many steps of one alias is typed with ample memory, and in
//! time for a test.
use crate::shared::{call, columns, name, push};
use pig_blocks::type_foreach;
use pig_syntax::{BagRef, Item, Items, Nested, Step, Steps};
use pig_value::{Seq, Text};
use std::alloc::Global;
use std::process::Abort;

// At a search of all earlier steps for each step, this takes minutes.
const STEPS: usize = 100_000;

fn step<R: Abort>(rt: &R, alloc: Global, from: &str) -> Step {
    let alias = Text::from_str(alloc, "x").expect(rt, "memory");
    let field = name(rt, alloc, from);
    let from = BagRef { field, sel: None };
    let nested = Nested::Take { from };
    Step { alias, nested }
}

// `x = g; x = x; x = x; ..`
fn steps<R: Abort>(rt: &R, alloc: Global) -> Steps {
    let mut steps = Seq::new(alloc);
    push(rt, &mut steps, step(rt, alloc, "g"));
    for _ in 1..STEPS {
        push(rt, &mut steps, step(rt, alloc, "x"));
    }
    steps
}

fn size_of<R: Abort>(rt: &R, alloc: Global, of: &str) -> Items {
    let mut items = Seq::new(alloc);
    push(
        rt,
        &mut items,
        Item::Value {
            value: call(rt, alloc, "SIZE", of),
            flatten: false,
            names: None,
        },
    );
    items
}

#[test]
fn types_a_long_block(rt: HostRuntime) {
    let alloc = rt.alloc();
    let columns = columns(&rt, alloc);
    let steps = steps(&rt, alloc);
    let items = size_of(&rt, alloc, "x");
    let found = type_foreach(alloc, steps.as_slice(), items.as_slice(), &columns);
    let count = match &found {
        Ok(typed) => typed.block.steps.len(),
        Err(_) => 0,
    };
    drop((steps, items, found));
    assert!(rt; count == STEPS);
}

//! Kinds of the rows of blocks and of their copies.
// Trees end by `drop`: one call is cheap to prove, and a tree that dies by name is taken apart variant by variant.
use crate::showing::{add, show_all};
use crate::writing::{push, row, written};
use pig_typed::{Block, BlockItem, BlockStep, SortKey, SortKeys, block_kinds, copy_block};
use pig_value::{Dir, Seq};
use std::alloc::Global;
use std::process::Abort;

// A line for each block: its steps, its items, and the kinds of its rows or `-`. A step is its form (`f` FILTER, `o`
// ORDER, `l` LIMIT, `d` DISTINCT, `t` the bag alone), its bag, and after `:` its condition, or the positions that it
// sorts by. An item is an expression, after `*` and its width where it is flattened.
const BLOCKS: &str = ". 0,*26,*25 iilic
. *10,*1n iy
. *16 -
. *26,7 il[i]
. *17 -
. 8 -
o6:1,lL L {il}
o6:1,d6p 1,L l{il}
f6:0i= *2L il
f6:0 L -
f6:2 L -
f6:0z L {il}
t6,f6:Lz L -
o6:10 L {il}
o6:2 L -
o66V:0 L -
o77V:0 L -
o55R:0 L {ic}
t66V L {{il}}
d6 L {il}
d5 L -
l0 L -
t6p *1L i
t7 0 -
";

fn step<R: Abort>(rt: &R, alloc: Global, text: &str) -> BlockStep {
    let (form, argument) = text.split_once(':').unwrap_or((text, ""));
    let (form, letters) = match form.as_bytes() {
        [form, letters @ ..] => (*form, letters),
        [] => (b't', form.as_bytes()),
    };
    let from = written(rt, alloc, letters);
    match form {
        b'f' => BlockStep::Filter {
            from,
            cond: written(rt, alloc, argument.as_bytes()),
        },
        b'o' => BlockStep::Order {
            from,
            keys: falling(rt, alloc, argument.as_bytes()),
        },
        b'l' => BlockStep::Limit { from, count: 1 },
        b'd' => BlockStep::Distinct { from },
        _ => BlockStep::Take { from },
    }
}

fn falling<R: Abort>(rt: &R, alloc: Global, digits: &[u8]) -> SortKeys {
    let mut keys = Seq::new(alloc);
    for digit in digits {
        push(rt, &mut keys, key(number(*digit)));
    }
    keys
}

fn key(position: u32) -> SortKey {
    SortKey {
        position,
        dir: Dir::Desc,
    }
}

fn number(digit: u8) -> u32 {
    match digit {
        b'0'..=b'9' => u32::from(digit - b'0'),
        _ => 0,
    }
}

fn item<R: Abort>(rt: &R, alloc: Global, text: &str) -> BlockItem {
    let (flatten, width, letters) = match text.as_bytes() {
        [b'*', width, rest @ ..] => (true, number(*width), rest),
        letters => (false, 1, letters),
    };
    BlockItem {
        value: written(rt, alloc, letters),
        flatten,
        width,
    }
}

fn block<R: Abort>(rt: &R, alloc: Global, steps: &str, items: &str) -> Block {
    let mut block = Block {
        steps: Seq::new(alloc),
        items: Seq::new(alloc),
    };
    for text in steps.split(',') {
        if text != "." {
            push(rt, &mut block.steps, step(rt, alloc, text));
        }
    }
    for text in items.split(',') {
        push(rt, &mut block.items, item(rt, alloc, text));
    }
    block
}

// The kinds of the rows of a copy of the block.
fn show_row<R: Abort>(rt: &R, alloc: Global, steps: &str, items: &str, into: &mut String) {
    let block = block(rt, alloc, steps, items);
    let copied = copy_block(alloc, &block).expect(rt, "memory");
    let row = row(rt, alloc);
    let found = block_kinds(alloc, &copied, &row).expect(rt, "memory");
    match &found {
        Some(kinds) => show_all(rt, kinds.as_slice(), into),
        None => add(rt, into, "-"),
    }
    drop((block, copied, row, found));
}

#[test]
fn blocks_have_their_kinds(rt: HostRuntime) {
    let mut found = String::new(rt.alloc());
    for line in BLOCKS.lines() {
        let mut parts = line.split(' ');
        let steps = parts.next().unwrap_or("");
        let items = parts.next().unwrap_or("");
        add(&rt, &mut found, steps);
        add(&rt, &mut found, " ");
        add(&rt, &mut found, items);
        add(&rt, &mut found, " ");
        show_row(&rt, rt.alloc(), steps, items, &mut found);
        add(&rt, &mut found, "\n");
    }
    assert_eq!(rt; found.as_str(), BLOCKS);
}

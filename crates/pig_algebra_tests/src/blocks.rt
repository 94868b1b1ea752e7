//! Which blocks have cuts, and which.
//!
//! Where memory is wanting the process ends: that drops nothing, so its proof is short.
use pig_algebra::{Cut, combinable};
use pig_typed::{Block, BlockItem, BlockStep, TExpr};
use pig_value::{Boxed, Function, Positions, Seq};
use std::alloc::Global;
use std::process::Abort;

// Items of blocks that have cuts. `key` is field 0, `bag` is field 1 and `null` a null; `.2` behind a word is a
// projection to the field at 2; COUNT and its kin are calls of the word behind them.
const COMBINED: &str = "key
key.1
key COUNT:bag
COUNT:bag
key COUNT:bag.1 COUNT_STAR:bag.1 SUM:bag.1 MIN:bag.1
MAX:bag.0 key.0 MAX:bag";

// Items of blocks that have none. `!` before a word is FLATTEN, and `step` a nested step in front of the items.
const OTHERS: &str = "bag
key bag.1
null
!key
!COUNT:bag
key SIZE:bag
COUNT:null
COUNT:key
SUM:key.1
key COUNT:bag key bag
step key
step key COUNT:bag";

fn push<R: Abort, T: Drop>(rt: &R, list: &mut Seq<T>, item: T) {
    list.push(item).expect(rt, "memory");
}

fn boxed<R: Abort>(rt: &R, alloc: Global, e: TExpr) -> Boxed<TExpr> {
    Boxed::new(alloc, e).expect(rt, "memory")
}

fn field(word: &str) -> TExpr {
    match word {
        "key" => TExpr::Field(0),
        "bag" => TExpr::Field(1),
        _ => TExpr::Null,
    }
}

fn number_of(word: &str) -> u32 {
    word.parse::<u32>().unwrap_or(0)
}

fn positions<R: Abort>(rt: &R, alloc: Global, place: &str) -> Positions {
    let mut fields = Seq::new(alloc);
    push(rt, &mut fields, number_of(place));
    fields
}

// A field, or a projection of it.
fn operand<R: Abort>(rt: &R, alloc: Global, word: &str) -> TExpr {
    match word.split_once('.') {
        Some((name, place)) => TExpr::Project {
            a: boxed(rt, alloc, field(name)),
            fields: positions(rt, alloc, place),
            single: true,
        },
        None => field(word),
    }
}

fn value<R: Abort>(rt: &R, alloc: Global, word: &str) -> TExpr {
    let Some((name, bag)) = word.split_once(':') else {
        return operand(rt, alloc, word);
    };
    let mut args = Seq::new(alloc);
    push(rt, &mut args, operand(rt, alloc, bag));
    TExpr::Call {
        function: Function::named(name).unwrap_or(Function::Size),
        args,
    }
}

fn item<R: Abort>(rt: &R, alloc: Global, word: &str) -> BlockItem {
    let plain = word.strip_prefix("!");
    BlockItem {
        value: value(rt, alloc, plain.unwrap_or(word)),
        flatten: plain.is_some(),
        width: 1,
    }
}

fn add<R: Abort>(rt: &R, alloc: Global, block: &mut Block, word: &str) {
    if word == "step" {
        let from = TExpr::Field(1);
        push(rt, &mut block.steps, BlockStep::Take { from });
    } else {
        push(rt, &mut block.items, item(rt, alloc, word));
    }
}

fn block<R: Abort>(rt: &R, alloc: Global, words: &str) -> Block {
    let mut block = Block {
        steps: Seq::new(alloc),
        items: Seq::new(alloc),
    };
    for word in words.split_ascii_whitespace() {
        add(rt, alloc, &mut block, word);
    }
    block
}

// Whether there is one place, the one behind the word's dot.
fn is_place(places: &[u32], word: &str) -> bool {
    match (places, word.split_once('.')) {
        ([place], Some((_, wanted))) => *place == number_of(wanted),
        _ => false,
    }
}

// Whether the columns are those of the word: all of them, or the one behind its dot.
fn are_columns(columns: &Option<Positions>, word: &str) -> bool {
    match columns {
        Some(columns) => is_place(columns.as_slice(), word),
        None => !word.contains('.'),
    }
}

// Whether an expression is field 0, or its projection to the place behind the word's dot.
fn is_key(e: &TExpr, word: &str) -> bool {
    match e {
        TExpr::Field(0) => word == "key",
        TExpr::Project { fields, .. } => word.starts_with("key.")
            && is_place(fields.as_slice(), word),
        _ => false,
    }
}

// Whether the cut is that of the word.
fn is_cut(cut: &Cut, word: &str) -> bool {
    match cut {
        Cut::Key(e) => is_key(e, word),
        Cut::Part { function, columns } => {
            word.starts_with(function.name()) && word.contains(":bag") && are_columns(columns, word)
        }
        Cut::Row => false,
    }
}

fn are_cuts(cuts: &[Cut], words: &str) -> bool {
    let mut left = cuts;
    for word in words.split_ascii_whitespace() {
        match left {
            [cut, more @ ..] if is_cut(cut, word) => left = more,
            _ => return false,
        }
    }
    left.is_empty()
}

// Whether the block of the words has the cuts of the words.
fn has_cuts<R: Abort>(rt: &R, alloc: Global, words: &str) -> bool {
    let block = block(rt, alloc, words);
    let found = combinable(alloc, &block).expect(rt, "memory");
    let right = match &found {
        Some(cuts) => are_cuts(cuts.as_slice(), words),
        None => false,
    };
    drop((block, found));
    right
}

fn has_none<R: Abort>(rt: &R, alloc: Global, words: &str) -> bool {
    let block = block(rt, alloc, words);
    let found = combinable(alloc, &block).expect(rt, "memory");
    let none = found.is_none();
    drop((block, found));
    none
}

#[test]
fn items_of_the_key_and_of_parts_have_cuts(rt: HostRuntime) {
    for words in COMBINED.lines() {
        assert!(rt; has_cuts(&rt, rt.alloc(), words), "{words}");
    }
}

#[test]
fn other_blocks_have_none(rt: HostRuntime) {
    for words in OTHERS.lines() {
        assert!(rt; has_none(&rt, rt.alloc(), words), "{words}");
    }
}

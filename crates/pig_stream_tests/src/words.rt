//! The words of a text under FLATTEN, batch behind batch, in one memory.
use pig_stream::Batch;
use pig_text::write_row;
use pig_typed::{Block, BlockItem, TExpr};
use pig_value::{Delim, Function, Seq, Text, Tuple, Value};
use std::alloc::Global;
use std::process::Abort;

/// The row of a text and an int; a null in place of the text `-`.
fn row<R: Abort>(rt: &R, alloc: Global, text: &str) -> Tuple {
    let mut row = Seq::new(alloc);
    let field = if text == "-" {
        Value::Null
    } else {
        Value::Chars(Text::from_str(alloc, text).expect(rt, "memory"))
    };
    row.push(field).expect(rt, "memory");
    row.push(Value::Int(7)).expect(rt, "memory");
    row
}

/// An item that is the words of a field.
fn words<R: Abort>(rt: &R, alloc: Global, field: u32, flatten: bool, width: u32) -> BlockItem {
    let mut args = Seq::new(alloc);
    args.push(TExpr::Field(field)).expect(rt, "memory");
    let function = Function::Tokenize;
    BlockItem {
        value: TExpr::Call { function, args },
        flatten,
        width,
    }
}

/// GENERATE of one item.
fn only<R: Abort>(rt: &R, alloc: Global, item: BlockItem) -> Block {
    let mut items = Seq::new(alloc);
    items.push(item).expect(rt, "memory");
    let steps = Seq::new(alloc);
    Block { steps, items }
}

/// The rows of a batch as text.
fn told<R: Abort>(rt: &R, alloc: Global, batch: &Batch) -> Vec<u8> {
    let mut bytes = Vec::new(alloc);
    for row in batch.as_slice() {
        write_row(row, Delim::tab(), &mut bytes).expect(rt, "memory");
    }
    bytes
}

fn fill<R: Abort>(rt: &R, alloc: Global, batch: &mut Batch, lines: &str) {
    batch.clear();
    for line in lines.split('|') {
        batch.push(row(rt, alloc, line)).expect(rt, "memory");
    }
}

/// Whether a batch of these lines becomes these rows, an LF behind each.
fn makes<R: Abort>(
    rt: &R,
    alloc: Global,
    batch: &mut Batch,
    block: &Block,
    lines: &str,
    wanted: &str,
) -> bool {
    fill(rt, alloc, batch, lines);
    batch.generate(alloc, block).expect(rt, "memory");
    let found = told(rt, alloc, batch);
    let same = found.as_slice() == wanted.as_bytes();
    drop(found);
    same
}

#[test]
fn words_are_cut_and_in_order(rt: HostRuntime) {
    let alloc = rt.alloc();
    let block = only(&rt, alloc, words(&rt, alloc, 0, true, 1));
    let mut batch = Batch::new(alloc);
    for (lines, wanted) in [
        ("one", "one\n"),
        ("b a", "a\nb\n"),
        ("c b a|b a", "a\nb\nc\na\nb\n"),
        ("x\"y,z(u)v*w", "u\nv\nw\nx\ny\nz\n"),
        (" ,a  b()* ", "a\nb\n"),
        ("", ""),
        (" \",()*", ""),
        ("-", "\n"),
        ("a|-|b", "a\n\nb\n"),
        ("a||b", "a\nb\n"),
        ("b ab a aa b", "a\naa\nab\nb\nb\n"),
        ("é z ß", "z\nß\né\n"),
        ("a\tb\u{0}c d;e", "a\tb\u{0}c\nd;e\n"),
    ] {
        assert!(rt;
            makes(&rt, alloc, &mut batch, &block, lines, wanted),
            "{lines}"
        );
    }
    drop(batch);
    drop(block);
}

#[test]
fn many_words_are_in_order(rt: HostRuntime) {
    let alloc = rt.alloc();
    let block = only(&rt, alloc, words(&rt, alloc, 0, true, 1));
    let mut batch = Batch::new(alloc);
    let line = "z y x w v u t s r q p o n m l k j i h g f e d c b a 9 8 7 6 5 4 3 2 1 0";
    let rows =
        "0\n1\n2\n3\n4\n5\n6\n7\n8\n9\na\nb\nc\nd\ne\nf\ng\nh\ni\nj\nk\nl\nm\nn\no\np\nq\nr\ns\nt\nu\nv\nw\nx\ny\nz\n";
    assert!(rt; makes(&rt, alloc, &mut batch, &block, line, rows));
    drop(batch);
    drop(block);
}

#[test]
fn a_batch_shows_none_of_the_one_before(rt: HostRuntime) {
    let alloc = rt.alloc();
    let block = only(&rt, alloc, words(&rt, alloc, 0, true, 1));
    let mut batch = Batch::new(alloc);
    for (lines, wanted) in [
        ("first second|third", "first\nsecond\nthird\n"),
        ("a", "a\n"),
        (
            "longer-than-before-it b|c d e",
            "b\nlonger-than-before-it\nc\nd\ne\n",
        ),
        ("", ""),
        ("-|q", "\nq\n"),
        ("short-again w", "short-again\nw\n"),
    ] {
        assert!(rt;
            makes(&rt, alloc, &mut batch, &block, lines, wanted),
            "{lines}"
        );
    }
    drop(batch);
    drop(block);
}

#[test]
fn other_blocks_go_another_way(rt: HostRuntime) {
    let alloc = rt.alloc();
    let mut batch = Batch::new(alloc);
    let bag = only(&rt, alloc, words(&rt, alloc, 0, false, 1));
    assert!(rt; makes(&rt, alloc, &mut batch, &bag, "b a|c", "{(a),(b)}\n{(c)}\n"));
    drop(bag);
    let number = only(&rt, alloc, words(&rt, alloc, 1, true, 1));
    assert!(rt; makes(&rt, alloc, &mut batch, &number, "b a|c", "\n\n"));
    drop(number);
    let none = only(&rt, alloc, words(&rt, alloc, 2, true, 1));
    assert!(rt; makes(&rt, alloc, &mut batch, &none, "b a", "\n"));
    drop(none);
    let wide = only(&rt, alloc, words(&rt, alloc, 1, true, 2));
    assert!(rt; makes(&rt, alloc, &mut batch, &wide, "b a", "\t\n"));
    drop(wide);
    drop(batch);
}

#[test]
fn words_of_words(rt: HostRuntime) {
    let alloc = rt.alloc();
    let block = only(&rt, alloc, words(&rt, alloc, 0, true, 1));
    let mut batch = Batch::new(alloc);
    for (lines, wanted) in [("b a|c", "a\nb\nc\n"), ("c", "c\n"), ("e d|-", "d\ne\n\n")] {
        assert!(rt;
            makes(&rt, alloc, &mut batch, &block, lines, wanted),
            "{lines}"
        );
        batch.generate(alloc, &block).expect(&rt, "memory");
        let found = told(&rt, alloc, &batch);
        assert!(rt; found.as_slice() == wanted.as_bytes(), "{lines}");
        drop(found);
    }
    drop(batch);
    drop(block);
}

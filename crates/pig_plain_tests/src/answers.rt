//! Plans from short words, and what they answer over inputs, as text. Where memory is wanting the process ends: that
//! drops nothing, so its proof is short.
// Trees end by `drop`: one call is cheap to prove, and a tree that dies by name is taken apart variant by variant.
use pig_nodes_tests::{
    above, add_fitting, call, flat, item, keyed, lettered, load, sort_keys, store,
};
use pig_plain::answer;
use pig_plan::{KeyedInputs, NodeOp, Plan};
use pig_text::write_row;
use pig_typed::{Block, TExpr};
use pig_value::{
    Blob, Boxed, Delim, Dir, Function, Input, Inputs, Kept, Kind, Numbers, Rows, Seq, Side, Text,
    bag,
};
use std::alloc::{AllocError, Global};
use std::process::Abort;
use std::test::Fail;

// The inputs: a path each, and its pieces.
const INPUTS: &str =
    "a|1\tx\n\ty\n\tz\n;b|1\tp\n\tq\n;c|2\ta\n\tb\n3\tc\n2\tA\n;none;ends|1\t2\r\n\n3\t4;\
n|1\n2\n3\n;two|3\n1|2\n1;words|the cat\nthe dog, the end\ncat\n;long|2147483648\n";

// Adds to a list.
fn push<R: Abort, T: Drop>(rt: &R, list: &mut Seq<T>, item: T) {
    list.push(item).expect(rt, "memory");
}

fn blob<R: Abort>(rt: &R, alloc: Global, text: &str) -> Blob {
    Blob::from_slice(alloc, text.as_bytes()).expect(rt, "memory")
}

/// The input of a path, and of its pieces behind bars.
fn input<R: Abort>(rt: &R, alloc: Global, text: &str) -> Input {
    let mut parts = text.split('|');
    let path = Text::from_str(alloc, parts.next().unwrap_or("")).expect(rt, "memory");
    let mut pieces = Seq::new(alloc);
    for piece in parts {
        push(rt, &mut pieces, blob(rt, alloc, piece));
    }
    Input { path, pieces }
}

fn inputs<R: Abort>(rt: &R, alloc: Global) -> Inputs {
    let mut inputs = Inputs::new(alloc);
    for text in INPUTS.split(';') {
        push(rt, &mut inputs, input(rt, alloc, text));
    }
    push(rt, &mut inputs, many(rt, alloc));
    inputs
}

/// More lines than are read at once: the numbers below 600, each once, in two pieces without a last line end.
fn many<R: Abort>(rt: &R, alloc: Global) -> Input {
    let mut pieces = Seq::new(alloc);
    push(rt, &mut pieces, numbers(rt, alloc, 0, 400));
    push(rt, &mut pieces, numbers(rt, alloc, 400, 600));
    Input {
        path: Text::from_str(alloc, "many").expect(rt, "memory"),
        pieces,
    }
}

fn numbers<R: Abort>(rt: &R, alloc: Global, from: u32, to: u32) -> Blob {
    let mut text = Vec::new(alloc);
    for place in from..to {
        if place > from {
            text.push(b'\n').expect(rt, "memory");
        }
        // 7 and 600 have no divisor in common.
        let number = place.wrapping_mul(7) % 600;
        for unit in [100, 10, 1] {
            if number >= unit || unit == 1 {
                let digit = b'0'.wrapping_add((number / unit % 10) as u8);
                text.push(digit).expect(rt, "memory");
            }
        }
    }
    Blob::from_vec(text)
}

/// FILTER by a first field above 1.
fn filter<R: Abort>(rt: &R, alloc: Global, input: u32) -> NodeOp {
    let cond = above(alloc).expect(rt, "memory");
    NodeOp::Filter { input, cond }
}

/// FOREACH: the words of a text `t`, an int as a long `w`, or a key and the number of its rows.
fn foreach<R: Abort>(rt: &R, alloc: Global, letter: u8, input: u32) -> NodeOp {
    let mut items = Seq::new(alloc);
    if letter == b't' {
        let words = call(alloc, Function::Tokenize, TExpr::Field(0)).expect(rt, "memory");
        push(rt, &mut items, flat(words, 1));
    } else if letter == b'w' {
        let a = Boxed::new(alloc, TExpr::Field(0)).expect(rt, "memory");
        let long = TExpr::Cast { to: Kind::Long, a };
        push(rt, &mut items, item(long));
    } else {
        let count = call(alloc, Function::Count, TExpr::Field(1)).expect(rt, "memory");
        push(rt, &mut items, item(TExpr::Field(0)));
        push(rt, &mut items, item(count));
    }
    let steps = Seq::new(alloc);
    let block = Block { steps, items };
    NodeOp::Foreach { input, block }
}

/// GROUP `g`, JOIN `j` and FULL JOIN, by the first fields.
fn by_key<R: Abort>(rt: &R, alloc: Global, letter: u8, numbers: &[u32]) -> NodeOp {
    let mut inputs = KeyedInputs::new(alloc);
    for number in numbers {
        let keyed = keyed(alloc, *number, TExpr::Field(0), false);
        push(rt, &mut inputs, keyed.expect(rt, "memory"));
    }
    if letter == b'g' {
        return NodeOp::Group { inputs };
    }
    let inner = letter == b'j';
    NodeOp::Join {
        inputs,
        side: if inner { Side::Inner } else { Side::Full },
        replicated: false,
    }
}

/// RANK `k`, RANK DENSE `K` and ORDER, which with `o` goes down by its first field.
fn by_order<R: Abort>(rt: &R, alloc: Global, letter: u8, input: u32, numbers: &[u32]) -> NodeOp {
    let first = if letter == b'o' { Dir::Desc } else { Dir::Asc };
    let positions = numbers.get(1..).unwrap_or(&[]);
    let keys = sort_keys(alloc, first, positions).expect(rt, "memory");
    let dense = letter == b'K';
    if dense || letter == b'k' {
        return NodeOp::Rank { input, keys, dense };
    }
    NodeOp::Order { input, keys }
}

/// The operator of a letter and the digits of nodes, fields and a count: those above, UNION `u`, DISTINCT `d`, GROUP ALL
/// `a`, LIMIT `l` and STORE.
fn operator<R: Abort>(rt: &R, alloc: Global, letter: u8, inputs: Numbers) -> NodeOp {
    let input = inputs.get(0).copied().unwrap_or(0);
    match letter {
        b'f' => filter(rt, alloc, input),
        b't' | b'w' | b'c' => foreach(rt, alloc, letter, input),
        b'g' | b'j' | b'J' => by_key(rt, alloc, letter, inputs.as_slice()),
        b'o' | b'O' | b'k' | b'K' => by_order(rt, alloc, letter, input, inputs.as_slice()),
        b'u' => NodeOp::Union { inputs },
        b'd' => NodeOp::Distinct { input },
        b'a' => NodeOp::GroupAll { input },
        b'l' => {
            let count = u64::from(inputs.get(1).copied().unwrap_or(0));
            NodeOp::Limit { input, count }
        }
        _ => store(alloc, input, "out").expect(rt, "memory"),
    }
}

/// The operator of a word: LOAD as `KINDS=PATH`, and other operators.
fn operator_of<R: Abort>(rt: &R, alloc: Global, word: &str) -> NodeOp {
    if let Some((kinds, path)) = word.split_once('=') {
        return load(alloc, kinds, path).expect(rt, "memory");
    }
    let (letter, inputs) = lettered(alloc, word).expect(rt, "memory");
    operator(rt, alloc, letter, inputs)
}

/// The plan of these words, which are statements from 1 on.
fn plan<R: Abort>(rt: &R, alloc: Global, words: &str) -> Plan {
    let mut plan = Plan::empty(alloc);
    let mut statement = 1;
    for word in words.split(' ') {
        let op = operator_of(rt, alloc, word);
        let fits = add_fitting(&mut plan, op, statement).expect(rt, "memory");
        assert!(rt; fits, "a node that doesn't fit");
        statement = statement.saturating_add(1);
    }
    plan
}

fn add_lines<R: Abort>(rt: &R, out: &mut Vec<u8>, rows: &Rows) {
    for row in rows.as_slice() {
        write_row(row, Delim::tab(), out).expect(rt, "memory");
    }
    out.extend_from_slice(b".\n").expect(rt, "memory");
}

fn add_kept<R: Abort>(rt: &R, out: &mut Vec<u8>, kept: Kept) {
    let digit = u8::try_from(kept.statement).unwrap_or(0);
    let line = [b'0'.saturating_add(digit), b'\n'];
    out.extend_from_slice(&line).expect(rt, "memory");
    add_lines(rt, out, &bag(kept.rows));
}

/// What was kept, behind lines of statements, and what each STORE stores, with a line `.` behind each. Bags are sorted,
/// and STOREs too if they aren't `listed`.
fn told<R: Abort>(rt: &R, alloc: Global, words: &str, listed: bool) -> Vec<u8> {
    let plan = plan(rt, alloc, words);
    let inputs = inputs(rt, alloc);
    let found = answer(alloc, &plan, &inputs).expect(rt, "memory");
    drop((plan, inputs));
    let mut out = Vec::new(alloc);
    for kept in found.kept.into_vec() {
        add_kept(rt, &mut out, kept);
    }
    for rows in found.stores.into_vec() {
        let rows = if listed { rows } else { bag(rows) };
        add_lines(rt, &mut out, &rows);
    }
    out
}

/// Whether this is told of the bags that STOREs store.
fn tells<R: Abort>(rt: &R, alloc: Global, words: &str, expected: &[u8]) -> bool {
    let out = told(rt, alloc, words, false);
    out.as_slice() == expected
}

/// Whether this is told of what STOREs store in order.
fn lists<R: Abort>(rt: &R, alloc: Global, words: &str, expected: &[u8]) -> bool {
    let out = told(rt, alloc, words, true);
    out.as_slice() == expected
}

#[test]
fn bags(rt: HostRuntime) {
    let alloc = rt.alloc();
    assert!(rt; tells(&rt, alloc, "ii=ends s0", b"\t\n1\t2\n3\t4\n.\n"));
    assert!(rt; tells(&rt, alloc, "i=two s0", b"1\n1\n2\n3\n.\n"));
    assert!(rt; tells(&rt, alloc, "i=two f0 s1", b"2\n3\n.\n"));
    assert!(rt; tells(&rt, alloc, "ic=a f0 s1", b".\n"));
    assert!(rt; tells(&rt, alloc, "i=none s0", b".\n"));
    assert!(rt; tells(&rt, alloc, "i=other s0", b".\n"));
    assert!(rt; tells(&rt, alloc, "i=two d0 s1", b"1\n2\n3\n.\n"));
    let expected = b"1\n1\n2\n2\n3\n3\n.\n1\n2\n3\n.\n";
    assert!(rt; tells(&rt, alloc, "i=n u00 s1 d1 s3", expected));
    assert!(rt; tells(&rt, alloc, "i=n l00 s1 s1", b"2\n.\n.\n.\n"));
    let expected = b"3\n1\n2\n3\n.\n1\n2\n3\n.\n1\n2\n3\n.\n";
    assert!(rt; tells(&rt, alloc, "i=n l02 l05 d0 s3 s2", expected));
    let expected = b"1\t\tb\n2\t2\tA\n2\t2\ta\n4\t3\tc\n.\n";
    assert!(rt; tells(&rt, alloc, "ic=c k00 s1", expected));
    let expected = b"1\t\tb\n2\t2\tA\n2\t2\ta\n3\t3\tc\n.\n";
    assert!(rt; tells(&rt, alloc, "ic=c K00 s1", expected));
}

#[test]
fn keys(rt: HostRuntime) {
    let alloc = rt.alloc();
    assert!(rt; tells(&rt, alloc, "ic=a g0 s1", b"\t{(,y),(,z)}\n1\t{(1,x)}\n.\n"));
    let expected = b"\t{}\t{(,q)}\n\t{(,y),(,z)}\t{}\n1\t{(1,x)}\t{(1,p)}\n.\n";
    assert!(rt; tells(&rt, alloc, "ic=a ic=b g01 s2", expected));
    assert!(rt; tells(&rt, alloc, "ic=a ic=b j01 s2", b"1\tx\t1\tp\n.\n"));
    let expected = b"\t\t\tq\n\ty\t\t\n\tz\t\t\n1\tx\t1\tp\n.\n";
    assert!(rt; tells(&rt, alloc, "ic=a ic=b J01 s2", expected));
    assert!(rt; tells(&rt, alloc, "i=n a0 s1", b"all\t{(1),(2),(3)}\n.\n"));
    assert!(rt; tells(&rt, alloc, "i=none a0 s1", b".\n"));
    assert!(rt; tells(&rt, alloc, "ic=a j00 s1", b"1\tx\t1\tx\n.\n"));
    let expected = b"2\t{(2)}\n3\t{(3)}\n.\n2\t1\n3\t1\n.\n";
    assert!(rt; tells(&rt, alloc, "i=two f0 g1 c2 f2 s4 s3", expected));
}

#[test]
fn lists_in_order(rt: HostRuntime) {
    let alloc = rt.alloc();
    assert!(rt; lists(&rt, alloc, "ic=c o00 s1", b"3\tc\n2\tA\n2\ta\n\tb\n.\n"));
    assert!(rt; lists(&rt, alloc, "ic=c o00 l12 s2", b"3\tc\n2\tA\n.\n"));
    assert!(rt; lists(&rt, alloc, "ic=c o00 l10 s2", b".\n"));
    assert!(rt; lists(&rt, alloc, "ic=c o00 l19 s2", b"3\tc\n2\tA\n2\ta\n\tb\n.\n"));
    let expected = b"1\n2\n3\n2147483648\n.\n";
    assert!(rt; lists(&rt, alloc, "i=n l=long w0 u21 O30 s4", expected));
    let expected = b"the\t3\ncat\t2\ndog\t1\nend\t1\n.\n";
    assert!(rt; lists(&rt, alloc, "c=words t0 g1 c2 o310 s4", expected));
}

// Rows that come in several batches: each is counted once, by whatever looks at them, and the last use is none too late.
#[test]
fn many_rows(rt: HostRuntime) {
    let alloc = rt.alloc();
    assert!(rt; lists(&rt, alloc, "i=many a0 c1 s2", b"all\t600\n.\n"));
    assert!(rt; lists(&rt, alloc, "i=many f0 a1 c2 s3", b"all\t598\n.\n"));
    assert!(rt; lists(&rt, alloc, "i=many f0 g1 c2 a3 c4 s5", b"all\t598\n.\n"));
    assert!(rt; lists(&rt, alloc, "i=many d0 a1 c2 s3", b"all\t600\n.\n"));
    assert!(rt; lists(&rt, alloc, "i=many u00 a1 c2 s3", b"all\t1200\n.\n"));
    assert!(rt; lists(&rt, alloc, "i=many j00 a1 c2 s3", b"all\t600\n.\n"));
    assert!(rt; lists(&rt, alloc, "i=many f0 o10 l22 s3", b"599\n598\n.\n"));
    let expected = b"all\t600\n.\nall\t598\n.\n";
    assert!(rt; lists(&rt, alloc, "i=many a0 c1 s2 f0 a4 c5 s6", expected));
}

// Any two rows may be kept, and both STOREs have them.
#[test]
fn two_rows_of_three(rt: HostRuntime) {
    let out = told(&rt, rt.alloc(), "i=n l02 s1 s1", false);
    let may_be: [&[u8]; 3] = [
        b"2\n1\n2\n.\n1\n2\n.\n1\n2\n.\n",
        b"2\n1\n3\n.\n1\n3\n.\n1\n3\n.\n",
        b"2\n2\n3\n.\n2\n3\n.\n2\n3\n.\n",
    ];
    assert!(rt; may_be.contains(&out.as_slice()), "two rows");
}

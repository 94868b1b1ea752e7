// Plans, and what is told of them. Where memory is wanting the process ends: that drops nothing, so its proof is short.
// Trees end by `drop`: one call is cheap to prove, and a tree that dies by name is taken apart variant by variant.
use pig_nodes_tests::{add_fitting, operator};
use pig_plan::{Plan, path_counts};
use pig_reach::{lines_read, live_numbers, live_paths, stores};
use pig_value::{Blob, Blobs, Input, Inputs, Seq, Text};
use std::alloc::Global;
use std::process::Abort;

/// Adds to a list.
fn push<R: Abort, T: Drop>(rt: &R, list: &mut Seq<T>, item: T) {
    list.push(item).expect(rt, "memory");
}

/// Adds to a text.
fn add<R: Abort>(rt: &R, into: &mut String, text: &str) {
    into.push_str(text).expect(rt, "memory");
}

/// The plan of words, each a node.
fn plan<R: Abort>(rt: &R, alloc: Global, words: &str) -> Plan {
    let mut plan = Plan::empty(alloc);
    let mut statement = 1;
    for word in words.split(' ') {
        let op = operator(alloc, word).expect(rt, "memory");
        add_fitting(&mut plan, op, statement).expect(rt, "memory");
        statement = if statement < 99 { statement + 1 } else { 99 };
    }
    plan
}

/// An input of pieces, which stand between bars.
fn input<R: Abort>(rt: &R, alloc: Global, path: &str, pieces: &str) -> Input {
    let mut blobs = Blobs::new(alloc);
    for piece in pieces.split('|') {
        let blob = Blob::from_slice(alloc, piece.as_bytes());
        push(rt, &mut blobs, blob.expect(rt, "memory"));
    }
    Input {
        path: Text::from_str(alloc, path).expect(rt, "memory"),
        pieces: blobs,
    }
}

/// `a` with two lines, and `b` with three in two pieces.
fn inputs<R: Abort>(rt: &R, alloc: Global) -> Inputs {
    let mut inputs = Inputs::new(alloc);
    push(rt, &mut inputs, input(rt, alloc, "a", "1\n2\n"));
    push(rt, &mut inputs, input(rt, alloc, "b", "3\n\n|4"));
    inputs
}

/// The live paths, and the directories of the STOREs with their statements.
fn paths<R: Abort>(rt: &R, alloc: Global, plan: &Plan) -> String {
    let mut told = String::new(alloc);
    let live = live_paths(alloc, plan).expect(rt, "memory");
    for path in live.as_slice() {
        add(rt, &mut told, path.as_str());
    }
    let stores = stores(alloc, plan).expect(rt, "memory");
    for store in stores.as_slice() {
        add(rt, &mut told, " ");
        add(rt, &mut told, store.dir.as_str());
    }
    told
}

/// The number of lines that are read.
fn lines<R: Abort>(rt: &R, alloc: Global, plan: &Plan) -> u64 {
    let inputs = inputs(rt, alloc);
    lines_read(alloc, plan, &inputs).expect(rt, "memory")
}

/// The paths, the number of live nodes, and that of lines.
fn told<R: Abort>(rt: &R, alloc: Global, words: &str) -> String {
    let plan = plan(rt, alloc, words);
    let paths = paths(rt, alloc, &plan);
    let live = live_numbers(alloc, &plan).expect(rt, "memory").len();
    let lines = lines(rt, alloc, &plan);
    drop(plan);
    format!(in alloc; "{paths} {live} {lines}").expect(rt, "memory")
}

// The words of a plan, and what is told of it.
const TOLD: &str = "La: 0 0
La s0p:a p 2 2
La Lb s1p:b p 2 3
La s0p s0q:a p q 3 4
La Lb La u012 s3p:ab p 5 7
La Lb u001 d2 s3p:ab p 5 7
La Lb Lc u001 d3 s4p s0q:ab p q 6 9
La f0 f1 l2 s3p:a p 5 2
La u00 u11 u22 s3p:a p 5 16
Lb La f1 s2p f0:a p 3 2
Lc s0p:c p 2 0
";

#[test]
fn what_stores_reach(rt: HostRuntime) {
    for line in TOLD.lines() {
        let (words, want) = line.split_once(':').unwrap_or((line, ""));
        let got = told(&rt, rt.alloc(), words);
        assert_eq!(rt; got.as_str(), want, "at {words}");
    }
}

/// The number of paths of each node, where more than five count as five.
fn counted<R: Abort>(rt: &R, alloc: Global, words: &str) -> String {
    let plan = plan(rt, alloc, words);
    let counts = path_counts(alloc, &plan, 5).expect(rt, "memory");
    drop(plan);
    let mut told = String::new(alloc);
    for count in counts.as_slice() {
        let count = *count;
        let word = format!(in alloc; " {count}").expect(rt, "memory");
        add(rt, &mut told, word.as_str());
    }
    told
}

// The words of a plan, and how many paths each of its nodes has.
const COUNTED: &str = "La: 1
La u00 u11 u22 u33: 1 2 4 5 5
La u00 u11 d2 u33 s4p: 1 2 4 1 2 2
La Lb u001 f2 l3: 1 1 3 3 1
";

#[test]
fn paths_count_up_to_a_limit(rt: HostRuntime) {
    for line in COUNTED.lines() {
        let (words, want) = line.split_once(':').unwrap_or((line, ""));
        let got = counted(&rt, rt.alloc(), words);
        assert_eq!(rt; got.as_str(), want, "at {words}");
    }
}

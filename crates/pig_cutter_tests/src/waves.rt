//! What `cut_plan` makes of plans. Where memory is wanting the process ends.
use pig_cutter::{CutFault, cut_plan};
use pig_physical::{Part, Size, Sizes, Stages, Task, WaveKind, Way};
use pig_plan::{KeyedInput, KeyedInputs, Node, NodeOp, Plan};
use pig_typed::{SortKey, SortKeys, TExpr, TExprs};
use pig_value::{Column, Columns, Delim, Dir, Kind, Lengths, Numbers, Side, Text};
use std::alloc::Global;
use std::process::Abort;

/// The number that a digit is.
fn digit(byte: u8) -> u32 {
    u32::from(byte.saturating_sub(b'0'))
}

fn text<R: Abort>(rt: &R, alloc: Global, text: &str) -> Text {
    Text::from_str(alloc, text).expect(rt, "memory")
}

fn columns<R: Abort>(rt: &R, alloc: Global) -> Columns {
    let mut columns = Columns::new(alloc);
    let (position, kind) = (0, Kind::Chararray);
    columns.push(Column { position, kind }).expect(rt, "memory");
    columns
}

fn load<R: Abort>(rt: &R, alloc: Global, path: &str) -> NodeOp {
    let delim = Delim::tab();
    let columns = columns(rt, alloc);
    let path = text(rt, alloc, path);
    NodeOp::Load {
        path,
        delim,
        columns,
    }
}

/// A node that reads both nodes.
fn union<R: Abort>(rt: &R, alloc: Global, a: u32, b: u32) -> NodeOp {
    let mut inputs = Numbers::new(alloc);
    inputs.push(a).expect(rt, "memory");
    inputs.push(b).expect(rt, "memory");
    NodeOp::Union { inputs }
}

fn keyed<R: Abort>(rt: &R, alloc: Global, input: u32) -> KeyedInput {
    let mut keys = TExprs::new(alloc);
    keys.push(TExpr::Field(0)).expect(rt, "memory");
    KeyedInput {
        input,
        keys,
        inner: false,
    }
}

fn cogroup<R: Abort>(rt: &R, alloc: Global, a: u32, b: u32) -> NodeOp {
    let mut inputs = KeyedInputs::new(alloc);
    inputs.push(keyed(rt, alloc, a)).expect(rt, "memory");
    inputs.push(keyed(rt, alloc, b)).expect(rt, "memory");
    NodeOp::Group { inputs }
}

/// A replicated JOIN of both nodes.
fn join<R: Abort>(rt: &R, alloc: Global, a: u32, b: u32) -> NodeOp {
    let mut inputs = KeyedInputs::new(alloc);
    inputs.push(keyed(rt, alloc, a)).expect(rt, "memory");
    inputs.push(keyed(rt, alloc, b)).expect(rt, "memory");
    let (side, replicated) = (Side::Inner, true);
    NodeOp::Join {
        inputs,
        side,
        replicated,
    }
}

fn order<R: Abort>(rt: &R, alloc: Global, input: u32) -> NodeOp {
    let mut keys = SortKeys::new(alloc);
    let (position, dir) = (0, Dir::Asc);
    keys.push(SortKey { position, dir }).expect(rt, "memory");
    NodeOp::Order { input, keys }
}

fn rank<R: Abort>(rt: &R, alloc: Global, input: u32) -> NodeOp {
    let mut keys = SortKeys::new(alloc);
    let (position, dir) = (0, Dir::Desc);
    keys.push(SortKey { position, dir }).expect(rt, "memory");
    let dense = false;
    NodeOp::Rank { input, keys, dense }
}

/// The node of a letter and of the digits of its inputs.
fn op<R: Abort>(rt: &R, alloc: Global, letter: u8, input: u32, other: u32) -> NodeOp {
    match letter {
        b'a' => load(rt, alloc, "in"),
        b'b' => load(rt, alloc, "b"),
        b'u' => union(rt, alloc, input, other),
        b'c' => cogroup(rt, alloc, input, other),
        b'j' => join(rt, alloc, input, other),
        b'o' => order(rt, alloc, input),
        b'r' => rank(rt, alloc, input),
        b'd' => NodeOp::Distinct { input },
        b'g' => NodeOp::GroupAll { input },
        b'l' => NodeOp::Limit { input, count: 1 },
        b'f' => NodeOp::Filter {
            input,
            cond: TExpr::Bool(true),
        },
        _ => NodeOp::Store {
            input,
            path: text(rt, alloc, "out"),
            delim: Delim::tab(),
        },
    }
}

/// The plan of words, each a node.
fn plan<R: Abort>(rt: &R, alloc: Global, words: &str) -> Plan {
    let mut plan = Plan::empty(alloc);
    let mut statement = 1;
    for word in words.split(' ') {
        let (letter, input, other) = match word.as_bytes() {
            [letter, input, other, ..] => (*letter, digit(*input), digit(*other)),
            [letter, input, ..] => (*letter, digit(*input), digit(*input)),
            _ => (b'a', 0, 0),
        };
        let op = op(rt, alloc, letter, input, other);
        add_fitting(rt, &mut plan, Node { op, statement });
        statement = if statement < 99 { statement + 1 } else { 99 };
    }
    plan
}

fn add_fitting<R: Abort>(rt: &R, plan: &mut Plan, node: Node) {
    let Ok(fits) = plan.fits(&node) else {
        panic!(rt; "memory");
    };
    if fits {
        plan.add(node).expect(rt, "memory");
    } else {
        drop(node);
    }
}

/// Pieces of lengths that are digits.
fn size<R: Abort>(rt: &R, alloc: Global, path: &str, digits: &str) -> Size {
    let mut lengths = Lengths::new(alloc);
    for byte in digits.as_bytes() {
        lengths.push(u64::from(digit(*byte))).expect(rt, "memory");
    }
    let path = text(rt, alloc, path);
    Size { path, lengths }
}

fn kind_letter(kind: WaveKind) -> &'static str {
    match kind {
        WaveKind::Map => "m",
        WaveKind::Reduce => "r",
        WaveKind::Copy => "c",
        WaveKind::Probe => "p",
        WaveKind::Rank => "k",
        WaveKind::Store => "s",
    }
}

fn add<R: Abort>(rt: &R, told: &mut String, word: &str) {
    told.push_str(word).expect(rt, "memory");
}

/// A way: the input, the source, and the nodes behind it.
fn add_way<R: Abort>(rt: &R, alloc: Global, told: &mut String, way: &Way) {
    let (input, source) = (way.input, way.path.source);
    let word = format!(in alloc; "{input}/{source}").expect(rt, "memory");
    add(rt, told, word.as_str());
    for node in way.path.nodes.as_slice() {
        let word = format!(in alloc; ">{node}").expect(rt, "memory");
        add(rt, told, word.as_str());
    }
}

fn add_part<R: Abort>(rt: &R, alloc: Global, told: &mut String, part: Part) {
    let word = match part {
        Part::Split(split) => {
            let (piece, from, to) = (split.piece, split.from, split.to);
            format!(in alloc; ":{piece}.{from}-{to}").expect(rt, "memory")
        }
        Part::Output { wave, at } => format!(in alloc; ":{wave}@{at}").expect(rt, "memory"),
    };
    add(rt, told, word.as_str());
}

/// A wave: the letter of its kind, and its tasks; one that reads a part has its node, its way and its part, one that brings
/// a partition together its node, the wave that it reads and its part, and so has one that ranks a partition.
fn add_wave<R: Abort>(rt: &R, alloc: Global, told: &mut String, stages: &Stages, wave: u32) {
    if wave >= stages.waves() {
        return;
    }
    add(rt, told, kind_letter(stages.kind(wave)));
    for at in 0..stages.tasks(wave) {
        match stages.task_at(wave, at) {
            Task::Map(task) => {
                let node = task.node;
                let word = format!(in alloc; " {node}=").expect(rt, "memory");
                add(rt, told, word.as_str());
                add_way(rt, alloc, told, stages.way_of(task));
                add_part(rt, alloc, told, task.part);
            }
            Task::Reduce(task) => {
                let (node, from, part) = (task.node, task.wave, task.part);
                let word = format!(in alloc; " {node}<{from}#{part}").expect(rt, "memory");
                add(rt, told, word.as_str());
            }
            Task::Rank(task) => {
                let (node, from, part) = (task.node, task.wave, task.part);
                let word = format!(in alloc; " {node}^{from}#{part}").expect(rt, "memory");
                add(rt, told, word.as_str());
            }
        }
    }
    add(rt, told, ";");
}

/// The waves of a plan that is cut.
fn cut<R: Abort>(rt: &R, alloc: Global, words: &str, sizes: &Sizes, split: u64) -> String {
    let plan = plan(rt, alloc, words);
    let mut told = String::new(alloc);
    match cut_plan(alloc, &plan, sizes, 2, split.max(1)) {
        Ok(stages) => {
            for wave in 0..stages.waves() {
                add_wave(rt, alloc, &mut told, &stages, wave);
            }
            drop(stages);
        }
        Err(CutFault::TooManyTasks) => add(rt, &mut told, "too many"),
        Err(CutFault::OutOfMemory) => add(rt, &mut told, "memory"),
    }
    drop(plan);
    told
}

// The size of a split, the lengths of the pieces of `in` and of `b`, the words of a plan, and its waves with two reducers:
// no STORE; no piece, an empty piece, splits of one byte, one as large as all and one that is larger; two STOREs; a node
// that no STORE reaches; UNION A, A; a diamond into a LIMIT; a COGROUP; DISTINCT, ORDER and LIMIT in turn; a RANK of no
// piece and of one; DISTINCT, RANK and LIMIT in turn; a replicated JOIN whose first input has three splits, one whose first
// input has no piece, and one of a UNION, with a DISTINCT behind it.
const WAVES: &str = "2 5 0 a0 d0:
2 - 0 a0 s0:s;
2 0 0 a0 s0:s 1=0/0>1:0.0-0;
1 2 0 a0 s0:s 1=0/0>1:0.0-1 1=0/0>1:0.1-2;
5 5 0 a0 s0:s 1=0/0>1:0.0-5;
9 50 0 a0 s0:s 1=0/0>1:0.0-5 1=0/0>1:1.0-0;
2 3 0 a0 s0 s0:s 1=0/0>1:0.0-2 1=0/0>1:0.2-3 2=0/0>2:0.0-2 2=0/0>2:0.2-3;
9 1 0 a0 g0 d0 s2:m 2=0/0:0.0-1;r 2<0#0 2<0#1;s 3=0/2>3:1@0 3=0/2>3:1@1;
9 1 0 a0 u00 d1 s2:m 2=0/0>1:0.0-1 2=0/0>1:0.0-1;r 2<0#0 2<0#1;s 3=0/2>3:1@0 3=0/2>3:1@1;
9 1 0 a0 f0 f0 u12 l3 s4:m 4=0/0>1>3:0.0-1 4=0/0>2>3:0.0-1;r 4<0#0;s 5=0/4>5:1@0;
9 1 2 a0 b0 c01 s2:m 2=0/0:0.0-1 2=1/1:0.0-2;r 2<0#0 2<0#1;s 3=0/2>3:1@0 3=0/2>3:1@1;
9 1 0 a0 d0 o1 l2 s3:m 1=0/0:0.0-1;r 1<0#0 1<0#1;m 2=0/1:1@0 2=0/1:1@1;r 2<2#0 2<2#1;m 3=0/2:3@0 3=0/2:3@1;r 3<4#0;s 4=0/3>4:5@0;
9 - 0 a0 r0 s1:m;r 1<0#0 1<0#1;k 1^1#0 1^1#1;s 2=0/1>2:2@0 2=0/1>2:2@1;
9 1 0 a0 r0 s1:m 1=0/0:0.0-1;r 1<0#0 1<0#1;k 1^1#0 1^1#1;s 2=0/1>2:2@0 2=0/1>2:2@1;
9 1 0 a0 d0 r1 l2 s3:m 1=0/0:0.0-1;r 1<0#0 1<0#1;m 2=0/1:1@0 2=0/1:1@1;r 2<2#0 2<2#1;k 2^3#0 2^3#1;m 3=0/2:4@0 3=0/2:4@1;r 3<5#0;s 4=0/3>4:6@0;
1 3 1 a0 b0 j01 s2:c 2=1/1:0.0-1;p 2=0/0:0.0-1 2=0/0:0.1-2 2=0/0:0.2-3;s 3=0/2>3:1@0 3=0/2>3:1@1 3=0/2>3:1@2;
9 - 1 a0 b0 j01 s2:c 2=1/1:0.0-1;p;s;
9 11 1 a0 b0 u01 j20 d3 s4:c 3=1/0:0.0-1 3=1/0:1.0-1;p 3=0/0>2:0.0-1 3=0/0>2:1.0-1 3=0/1>2:0.0-1;m 4=0/3:1@0 4=0/3:1@1 4=0/3:1@2;r 4<2#0 4<2#1;s 5=0/4>5:3@0 5=0/4>5:3@1;
";

fn cut_line<R: Abort>(rt: &R, alloc: Global, line: &str) -> String {
    let (split, rest) = line.split_once(' ').unwrap_or((line, ""));
    let (own, rest) = rest.split_once(' ').unwrap_or((rest, ""));
    let (other, words) = rest.split_once(' ').unwrap_or((rest, ""));
    let own = if own == "-" { "" } else { own };
    let mut sizes = Sizes::new(alloc);
    sizes.push(size(rt, alloc, "in", own)).expect(rt, "memory");
    sizes.push(size(rt, alloc, "b", other)).expect(rt, "memory");
    let split = match split.as_bytes() {
        [size, ..] => u64::from(digit(*size)),
        [] => 1,
    };
    let told = cut(rt, alloc, words, &sizes, split);
    drop(sizes);
    told
}

#[test]
fn plans_are_cut(rt: HostRuntime) {
    for line in WAVES.lines() {
        let (words, want) = line.split_once(':').unwrap_or((line, ""));
        let got = cut_line(&rt, rt.alloc(), words);
        assert_eq!(rt; got.as_str(), want, "at {words}");
    }
}

/// A LOAD, and so many UNIONs that each read the node before twice.
fn unions<R: Abort>(rt: &R, alloc: Global, unions: u32) -> Plan {
    let mut plan = Plan::empty(alloc);
    let op = load(rt, alloc, "in");
    add_fitting(rt, &mut plan, Node { op, statement: 1 });
    for number in 0..unions {
        let op = union(rt, alloc, number, number);
        add_fitting(rt, &mut plan, Node { op, statement: 2 });
    }
    plan
}

fn add_store<R: Abort>(rt: &R, alloc: Global, plan: &mut Plan, input: u32) {
    let path = text(rt, alloc, "out");
    let delim = Delim::tab();
    let op = NodeOp::Store { input, path, delim };
    add_fitting(rt, plan, Node { op, statement: 3 });
}

/// A LOAD, so many UNIONs that each read the node before twice, and a STORE.
fn doubled<R: Abort>(rt: &R, alloc: Global, count: u32) -> Plan {
    let mut plan = unions(rt, alloc, count);
    add_store(rt, alloc, &mut plan, count);
    plan
}

/// How many tasks the store wave of doubled paths has, or none where they are too many.
fn tasks_of<R: Abort>(rt: &R, alloc: Global, unions: u32, pieces: u32, length: u64) -> Option<u32> {
    let plan = doubled(rt, alloc, unions);
    let mut lengths = Lengths::new(alloc);
    for _ in 0..pieces {
        lengths.push(length).expect(rt, "memory");
    }
    let path = text(rt, alloc, "in");
    let mut sizes = Sizes::new(alloc);
    sizes.push(Size { path, lengths }).expect(rt, "memory");
    let tasks = match cut_plan(alloc, &plan, &sizes, 4, 1) {
        Ok(stages) => {
            let tasks = if stages.waves() > 0 {
                stages.tasks(0)
            } else {
                0
            };
            drop(stages);
            Some(tasks)
        }
        Err(_) => None,
    };
    drop((plan, sizes));
    tasks
}

#[test]
fn the_limit_counts_tasks_and_ways(rt: HostRuntime) {
    let alloc = rt.alloc();
    assert_eq!(rt; tasks_of(&rt, alloc, 0, 1, 65_535), Some(65_535));
    assert_eq!(rt; tasks_of(&rt, alloc, 0, 1, 65_536), None);
    assert_eq!(rt; tasks_of(&rt, alloc, 0, 1, u64::MAX), None);
    assert_eq!(rt; tasks_of(&rt, alloc, 15, 1, 0), Some(32_768));
    assert_eq!(rt; tasks_of(&rt, alloc, 15, 1, 2), None);
    assert_eq!(rt; tasks_of(&rt, alloc, 16, 0, 0), Some(0));
    assert_eq!(rt; tasks_of(&rt, alloc, 16, 1, 0), None);
}

#[test]
fn paths_that_double_are_too_many(rt: HostRuntime) {
    let alloc = rt.alloc();
    assert_eq!(rt; tasks_of(&rt, alloc, 17, 0, 0), None);
    assert_eq!(rt; tasks_of(&rt, alloc, 64, 0, 0), None);
    assert_eq!(rt; tasks_of(&rt, alloc, 200, 1, 1), None);
}

/// What is answered where so many UNIONs are joined with the LOAD, which has one split, and a STORE reads the node behind
/// so many: the number of waves, or why the plan is not cut.
fn probed<R: Abort>(rt: &R, alloc: Global, count: u32, stored: u32) -> String {
    let mut plan = unions(rt, alloc, count);
    let op = join(rt, alloc, count, 0);
    add_fitting(rt, &mut plan, Node { op, statement: 2 });
    add_store(rt, alloc, &mut plan, stored);
    let mut sizes = Sizes::new(alloc);
    sizes.push(size(rt, alloc, "in", "1")).expect(rt, "memory");
    let mut told = String::new(alloc);
    match cut_plan(alloc, &plan, &sizes, 4, 1) {
        Ok(stages) => {
            for wave in 0..stages.waves() {
                let count = stages.tasks(wave);
                let word = format!(in alloc; " {count}").expect(rt, "memory");
                add(rt, &mut told, word.as_str());
            }
            drop(stages);
        }
        Err(CutFault::TooManyTasks) => add(rt, &mut told, "too many"),
        Err(CutFault::OutOfMemory) => add(rt, &mut told, "memory"),
    }
    drop((plan, sizes));
    told
}

// A JOIN that no STORE reaches may have any number of parts.
#[test]
fn probes_that_double_are_too_many(rt: HostRuntime) {
    let alloc = rt.alloc();
    assert_eq!(rt; probed(&rt, alloc, 3, 4).as_str(), " 1 8 8");
    assert_eq!(rt; probed(&rt, alloc, 15, 16).as_str(), " 1 32768 32768");
    assert_eq!(rt; probed(&rt, alloc, 16, 17).as_str(), "too many");
    assert_eq!(rt; probed(&rt, alloc, 33, 34).as_str(), "too many");
    assert_eq!(rt; probed(&rt, alloc, 200, 201).as_str(), "too many");
    assert_eq!(rt; probed(&rt, alloc, 200, 0).as_str(), " 1");
}

//! What is brought together of two tasks' outputs. Where memory is wanting the process ends.
ghost use Rattle.std.specs.Prelude.{◌≡◌, [], ℕ, length, map};
ghost use Rattle.std.specs.List.{AllByRecursion};
ghost use Rattle.pig_plan.specs.Plans.{op_of};
ghost use Rattle.pig_physical.specs.Fitting.{run_dirs};
ghost use Rattle.pig_physical.specs.Handed.{out_of};
ghost use Rattle.pig_reduce.specs.Made.{AreOfFirst, HasDirs};

use crate::given::{lines_of, rows_of, run_of};
use pig_packed::{Packed, PackedBuilder};
use pig_physical::{Out, OutForm, OutRuns, SlicedRun};
use pig_plan::{KeyedInput, KeyedInputs, NodeOp, Plan};
use pig_reduce::{add_brought, add_folded, entries_of, first_rows};
use pig_runs::{CutPoints, Merged, Run, Runs, cuts, merge_lent, whole_run};
use pig_typed::{Block, BlockItem, BlockItems, BlockSteps, SortKeys, TExpr, TExprs};
use pig_value::{Dirs, Function, Numbers, OutList, Side};
use std::alloc::Global;
use std::process::Abort;

fn out(alloc: Global, form: OutForm) -> Out {
    Out {
        form,
        lines: 0,
        unmet: Numbers::new(alloc),
    }
}

/// An output with one run.
fn run_out<R: Abort>(rt: &R, alloc: Global, run: Run) -> Out
    requires { run.dirs ≡ [] }
    ensures { HasDirs [] 0 (out_of result) }
{
    let mut runs = Runs::new(alloc);
    runs.push(run).expect(rt, "memory");
    Out {
        form: OutForm::Runs(OutRuns::Several(runs)),
        lines: 0,
        unmet: Numbers::new(alloc),
    }
}

/// An output with no run.
fn no_run(alloc: Global) -> Out
    ensures { HasDirs [] 0 (out_of result) }
{
    Out {
        form: OutForm::Rows(PackedBuilder::new(alloc).finish()),
        lines: 0,
        unmet: Numbers::new(alloc),
    }
}

/// The outputs of two runs, with one between them that has none.
fn outs<R: Abort>(rt: &R, alloc: Global, a: Run, b: Run) -> OutList<Out>
    requires a { a.dirs ≡ [] }
    requires b { b.dirs ≡ [] }
    ensures { AllByRecursion (HasDirs [] 0) (map out_of result) }
{
    let mut outs = OutList::new(alloc);
    outs.push(run_out(rt, alloc, a)).expect(rt, "memory");
    outs.push(no_run(alloc)).expect(rt, "memory");
    outs.push(run_out(rt, alloc, b)).expect(rt, "memory");
    outs
}

/// The lines that an operator gives of two runs.
fn brought<R: Abort>(rt: &R, alloc: Global, op: NodeOp, a: Run, b: Run) -> Vec<u8>
    requires op { run_dirs (op_of op) ≡ [] }
    requires a { a.dirs ≡ [] }
    requires b { b.dirs ≡ [] }
{
    let outs = outs(rt, alloc, a, b);
    brought_of(rt, alloc, op, outs, 0)
}

/// The lines that an operator gives of a partition of outputs.
fn brought_of<R: Abort>(rt: &R, alloc: Global, op: NodeOp, outs: OutList<Out>, part: u32) -> Vec<u8>
    requires op { run_dirs (op_of op) ≡ [] }
    requires outs { AllByRecursion (HasDirs [] part) (map out_of outs) }
{
    let plan = Plan::empty(alloc);
    let entries = entries_of(alloc, &op, outs.as_slice(), part).expect(rt, "memory");
    let mut built = PackedBuilder::new(alloc);
    add_brought(alloc, &plan, &op, &entries, &mut built).expect(rt, "memory");
    drop((plan, op));
    drop(entries);
    drop(outs);
    lines(rt, alloc, built.finish())
}

fn lines<R: Abort>(rt: &R, alloc: Global, packed: Packed) -> Vec<u8> {
    let lines = lines_of(alloc, &packed).expect(rt, "memory");
    drop(packed);
    lines
}

fn run<R: Abort>(rt: &R, alloc: Global, letter: u8, input: u32, text: &[u8]) -> Run
    ensures dirs { result.dirs ≡ [] }
    ensures first { input ≡ 0 → AreOfFirst result.entries }
{
    run_of(alloc, letter, input, text).expect(rt, "memory")
}

fn keyed<R: Abort>(rt: &R, alloc: Global, inner: &[bool]) -> KeyedInputs {
    let mut inputs = KeyedInputs::new(alloc);
    for flag in inner {
        let keys = TExprs::new(alloc);
        let (input, inner) = (0, *flag);
        inputs
            .push(KeyedInput { input, keys, inner })
            .expect(rt, "memory");
    }
    inputs
}

#[test]
fn a_key_of_two_tasks_is_one_group(rt: HostRuntime) {
    let alloc = rt.alloc();
    let inputs = keyed(&rt, alloc, &[false]);
    let a = run(&rt, alloc, b'g', 0, b"x\t2\nz\t3\n");
    let b = run(&rt, alloc, b'g', 0, b"y\t5\nx\t1\n");
    let found = brought(&rt, alloc, NodeOp::Group { inputs }, a, b);
    let expected = b"x\t{(x,1),(x,2)}\ny\t{(y,5)}\nz\t{(z,3)}\n";
    assert!(rt; found.as_slice() == expected.as_slice());
}

#[test]
fn null_keys_join_nothing(rt: HostRuntime) {
    let alloc = rt.alloc();
    let inputs = keyed(&rt, alloc, &[false, false]);
    let a = run(&rt, alloc, b'g', 0, b"x\t2\n\t3\n");
    let b = run(&rt, alloc, b'g', 1, b"\t5\nx\t1\n");
    let op = NodeOp::Join {
        inputs,
        side: Side::Inner,
        replicated: false,
    };
    let found = brought(&rt, alloc, op, a, b);
    assert!(rt; found.as_slice() == b"x\t2\tx\t1\n".as_slice());
}

#[test]
fn rows_of_two_tasks_are_one(rt: HostRuntime) {
    let alloc = rt.alloc();
    let a = run(&rt, alloc, b'd', 0, b"x\t2\nz\t3\n");
    let b = run(&rt, alloc, b'd', 0, b"a\t5\nx\t2\nx\t1\n");
    let found = brought(&rt, alloc, NodeOp::Distinct { input: 0 }, a, b);
    let expected = b"a\t5\nx\t1\nx\t2\nz\t3\n";
    assert!(rt; found.as_slice() == expected.as_slice());
}

#[test]
fn rows_of_two_tasks_are_in_one_order(rt: HostRuntime) {
    let alloc = rt.alloc();
    let keys = SortKeys::new(alloc);
    let (a, b) = (first(&rt, alloc), second(&rt, alloc));
    let found = brought(&rt, alloc, NodeOp::Order { input: 0, keys }, a, b);
    let expected = b"x\t1\nx\t2\ny\t5\nz\t3\n";
    assert!(rt; found.as_slice() == expected.as_slice());
}

/// The points that cut the entries of two runs into two slices.
fn points<R: Abort>(rt: &R, alloc: Global, a: Run, b: Run) -> CutPoints
    requires a { a.dirs ≡ [] }
    requires b { b.dirs ≡ [] }
    ensures dirs { result.dirs ≡ [] }
    ensures one { length result.points ≡ 1 }
{
    let mut runs = Runs::new(alloc);
    runs.push(a).expect(rt, "memory");
    runs.push(b).expect(rt, "memory");
    let found = cuts(alloc, &runs, 2).expect(rt, "memory");
    drop(runs);
    found
}

/// An output with a run that is cut into two.
fn cut_out<R: Abort>(rt: &R, alloc: Global, run: Run, points: &CutPoints) -> Out
    requires run { run.dirs ≡ [] }
    requires dirs { points.now.dirs ≡ [] }
    requires one { length points.now.points ≡ 1 }
    ensures { (p : ℕ) → HasDirs [] p (out_of result) }
{
    let slices = SlicedRun::of(alloc, run, points, 2).expect(rt, "memory");
    Out {
        form: OutForm::Runs(OutRuns::Slices(slices)),
        lines: 0,
        unmet: Numbers::new(alloc),
    }
}

/// The lines of one slice of two runs in order.
fn slice<R: Abort>(rt: &R, alloc: Global, part: u32) -> Vec<u8> {
    let points = points(rt, alloc, first(rt, alloc), second(rt, alloc));
    let mut outs = OutList::new(alloc);
    outs.push(cut_out(rt, alloc, first(rt, alloc), &points))
        .expect(rt, "memory");
    outs.push(cut_out(rt, alloc, second(rt, alloc), &points))
        .expect(rt, "memory");
    drop(points);
    let op = NodeOp::Order {
        input: 0,
        keys: SortKeys::new(alloc),
    };
    brought_of(rt, alloc, op, outs, part)
}

fn first<R: Abort>(rt: &R, alloc: Global) -> Run
    ensures { result.dirs ≡ [] }
{
    run(rt, alloc, b'g', 0, b"x\t2\nz\t3\n")
}

fn second<R: Abort>(rt: &R, alloc: Global) -> Run
    ensures { result.dirs ≡ [] }
{
    run(rt, alloc, b'g', 0, b"y\t5\nx\t1\n")
}

#[test]
fn slices_of_two_tasks_are_in_order(rt: HostRuntime) {
    let alloc = rt.alloc();
    assert!(rt; slice(&rt, alloc, 0).as_slice() == b"x\t1\nx\t2\n".as_slice());
    assert!(rt; slice(&rt, alloc, 1).as_slice() == b"y\t5\nz\t3\n".as_slice());
    assert!(rt; slice(&rt, alloc, 2).is_empty());
}

/// An item of a FOREACH over a GROUP: a function of the grouped rows.
fn item<R: Abort>(rt: &R, alloc: Global, function: Function) -> BlockItem {
    let mut args = TExprs::new(alloc);
    args.push(TExpr::Field(1)).expect(rt, "memory");
    BlockItem {
        value: TExpr::Call { function, args },
        flatten: false,
        width: 1,
    }
}

/// COUNT, SUM, MIN and MAX of the rows of a group, and its key.
fn block<R: Abort>(rt: &R, alloc: Global) -> Block {
    let mut items = BlockItems::new(alloc);
    for function in [Function::Count, Function::Sum, Function::Min, Function::Max] {
        items.push(item(rt, alloc, function)).expect(rt, "memory");
    }
    let value = TExpr::Field(0);
    let (flatten, width) = (false, 1);
    let key = BlockItem {
        value,
        flatten,
        width,
    };
    items.push(key).expect(rt, "memory");
    let steps = BlockSteps::new(alloc);
    Block { steps, items }
}

/// The entries of two runs.
fn merged<'r, R: Abort>(rt: &R, alloc: Global, a: &'r Run, b: &'r Run) -> Merged<'r>
    requires a { a.now.dirs ≡ [] }
    requires b { b.now.dirs ≡ [] }
    ensures dirs { result.dirs ≡ [] }
    ensures first { AreOfFirst a.now.entries → AreOfFirst b.now.entries
        → AreOfFirst result.entries }
{
    let parts = [whole_run(a), whole_run(b)];
    merge_lent(alloc, &parts, Dirs::new(alloc)).expect(rt, "memory")
}

#[test]
fn parts_of_two_tasks_are_merged(rt: HostRuntime) {
    let alloc = rt.alloc();
    let a = run(
        &rt,
        alloc,
        b'p',
        0,
        b"x\t2\t9223372036854775807\t4\t4\nz\t1\t\t\t\n",
    );
    let b = run(&rt, alloc, b'p', 0, b"x\t3\t1\t2\t7\ny\t1\t5\t5\t5\n");
    let entries = merged(&rt, alloc, &a, &b);
    let block = block(&rt, alloc);
    let mut built = PackedBuilder::new(alloc);
    add_folded(alloc, &block, &entries, &mut built).expect(&rt, "memory");
    drop(block);
    drop(entries);
    drop((a, b));
    let found = lines(&rt, alloc, built.finish());
    let expected = b"5\t-9223372036854775808\t2\t7\tx\n1\t5\t5\t5\ty\n1\t\t\t\tz\n";
    assert!(rt; found.as_slice() == expected.as_slice());
}

/// The first rows of two outputs with rows, and of one that has none.
fn limited<R: Abort>(rt: &R, alloc: Global, count: u64) -> Vec<u8> {
    let mut outs = OutList::new(alloc);
    for text in [b"x\t2\nz\t3\n".as_slice(), b"", b"y\t5\nx\t1\n"] {
        let rows = rows_of(alloc, text).expect(rt, "memory");
        outs.push(out(alloc, OutForm::Rows(rows)))
            .expect(rt, "memory");
    }
    let rows = first_rows(alloc, outs.as_slice(), count).expect(rt, "memory");
    drop(outs);
    lines(rt, alloc, rows)
}

#[test]
fn a_limit_takes_the_first_rows(rt: HostRuntime) {
    let alloc = rt.alloc();
    assert!(rt; limited(&rt, alloc, 3).as_slice() == b"x\t2\nz\t3\ny\t5\n".as_slice());
    assert!(rt; limited(&rt, alloc, 0).is_empty());
    assert!(rt; limited(&rt, alloc, 9).len() == 16);
}

//! What no clause says of `parse`: that long chains and deep brackets are read with ample memory, up to the limits on
//! what no bracket bounds.
use crate::reading::{Answer, counted, parsed};
use pig_syntax::{Expr, Op, Stmt, Stmts};
use std::alloc::Global;
use std::process::Abort;

// The number of links of the chain that the first statement filters by.
fn links(trees: &Stmts) -> usize {
    match trees.get(0) {
        Some(tree) => match tree {
            Stmt::Assign { op, .. } => links_of(op),
            _ => 0,
        },
        None => 0,
    }
}

fn links_of(op: &Op) -> usize {
    match op {
        Op::Filter { cond, .. } => match cond {
            Expr::Chain { rest, .. } => rest.len(),
            _ => 0,
        },
        _ => 0,
    }
}

// Adds a text so many times.
fn add_times<R: Abort>(rt: &R, script: &mut String, text: &str, times: usize) {
    for _ in 0..times {
        script.push_str(text).expect(rt, "memory");
    }
}

// The number of links of a script's first statement.
fn links_read<R: Abort>(rt: &R, alloc: Global, script: &str) -> usize {
    let found = parsed(rt, alloc, script);
    let number = match &found {
        Answer::Trees(trees) => links(trees),
        _ => 0,
    };
    drop(found);
    number
}

#[test]
fn reads_a_long_chain(rt: HostRuntime) {
    let mut script = String::from_str(rt.alloc(), "x = FILTER a BY b").expect(&rt, "memory");
    add_times(&rt, &mut script, " + b", 100_000);
    script.push_str(";").expect(&rt, "memory");
    let number = links_read(&rt, rt.alloc(), script.as_str());
    assert_eq!(rt; number, 100_000);
}

// A statement with so many brackets, one in the other, between its front and its end.
fn nested<R: Abort>(
    rt: &R,
    alloc: Global,
    parts: (&str, &str, &str, &str, &str),
    times: usize,
) -> String {
    let (front, open, middle, close, end) = parts;
    let mut script = String::from_str(alloc, front).expect(rt, "memory");
    add_times(rt, &mut script, open, times);
    script.push_str(middle).expect(rt, "memory");
    add_times(rt, &mut script, close, times);
    script.push_str(end).expect(rt, "memory");
    script
}

#[test]
fn reads_brackets_64_deep(rt: HostRuntime) {
    let cases: [((&str, &str, &str, &str, &str), usize); 7] = [
        (("x = FILTER a BY ", "(", "b", ")", ";"), 64),
        (("x = FILTER a BY ", "- (", "b", ")", ";"), 64),
        (("x = FILTER a BY ", "f(c, ", "b", ")", ";"), 64),
        (("x = FILTER a BY ", "(c ? b : ", "b", ")", ";"), 64),
        (("x = GROUP a BY (", "(", "b", ")", ", c);"), 63),
        (("x = LOAD 'p' AS (a: ", "[", "int", "]", ");"), 63),
        (("x = LOAD 'p' AS ", "(a: ", "int", ")", ";"), 64),
    ];
    for (parts, times) in cases {
        let script = nested(&rt, rt.alloc(), parts, times);
        let number = counted(&rt, rt.alloc(), script.as_str());
        assert_eq!(rt; number, 1, "{script}");
    }
}

// How the reading of a script ends.
fn ended<R: Abort>(rt: &R, alloc: Global, script: &str) -> &'static str {
    let found = parsed(rt, alloc, script);
    let end = match &found {
        Answer::Trees(_) => "trees",
        Answer::SyntaxAt(_) => "syntax",
        Answer::OutOfMemory => "memory",
        Answer::Other => "no answer",
    };
    drop(found);
    end
}

// Steps that no bracket bounds: 1,024 in one expression, wherever they stand in it, and no more.
#[test]
fn bounds_steps_without_brackets(rt: HostRuntime) {
    let sixteen = ".y.y.y.y.y.y.y.y.y.y.y.y.y.y.y.y)";
    let cases: [((&str, &str, &str, &str, &str), usize, &str); 14] = [
        (("x = FILTER a BY b", ".y", "", "", ";"), 1_024, "trees"),
        (("x = FILTER a BY b", ".y", "", "", ";"), 1_025, "memory"),
        (("x = FILTER a BY b", "#'k'", "", "", ";"), 1_024, "trees"),
        (
            ("x = FILTER a BY b", "#'k'", ".y", "", ";"),
            1_024,
            "memory",
        ),
        (("x = FILTER a BY ", "(", "b", sixteen, ";"), 64, "trees"),
        (("x = FILTER a BY ", "(", "b", sixteen, ".y;"), 64, "memory"),
        (
            ("x = FILTER a BY CASE", " WHEN b THEN c", " END", "", ";"),
            1_000,
            "trees",
        ),
        (
            ("x = FILTER a BY CASE b", " WHEN 1 THEN c", " END", "", ";"),
            1_024,
            "trees",
        ),
        (
            ("x = FILTER a BY CASE", " WHEN b THEN c", " END.y", "", ";"),
            1_024,
            "memory",
        ),
        (
            ("x = FILTER a BY ", "CASE WHEN b THEN ", "c", " END", ";"),
            64,
            "trees",
        ),
        (
            ("x = FOREACH a GENERATE b", ".y", ", c", ".y", ";"),
            1_024,
            "trees",
        ),
        (
            ("x = FOREACH a GENERATE b", ".y", " + c", ".y", ";"),
            513,
            "memory",
        ),
        (
            ("x = GROUP a BY (b", ".y", ", c", ".y", ");"),
            1_024,
            "trees",
        ),
        (
            ("x = FILTER a BY b", ".y", " IN (1, 2, 3)", "", ";"),
            1_024,
            "trees",
        ),
    ];
    for (parts, times, wanted) in cases {
        let script = nested(&rt, rt.alloc(), parts, times);
        let end = ended(&rt, rt.alloc(), script.as_str());
        assert_eq!(rt; end, wanted, "{times} times: {script}");
    }
}

// An operand of 1,024 nodes may be copied 1,024 times in one script, and no more, and a text of 8,192 bytes 8,192 times. What is tried
// in vain doesn't count.
#[test]
fn bounds_copies(rt: HostRuntime) {
    let sum = " + b";
    let cases: [((&str, &str, &str, &str, &str), usize, &str); 6] = [
        (
            ("x = FILTER a BY b", sum, " IN (1, 1, 1", ", 1", ");"),
            1_022,
            "trees",
        ),
        (
            ("x = FILTER a BY b", sum, " IN (1, 1, 1, 1", ", 1", ");"),
            1_022,
            "memory",
        ),
        (
            ("x = FILTER a BY 'bb", "b", "' IN (1, 1, 1", ", 1", ");"),
            8_190,
            "trees",
        ),
        (
            ("x = FILTER a BY 'bb", "b", "' IN (1, 1, 1, 1", ", 1", ");"),
            8_190,
            "memory",
        ),
        (
            (
                "x = FILTER a BY b IN (1, 1); x = FILTER a BY 'bb",
                "b",
                "' IN (1, 1, 1",
                ", 1",
                ");",
            ),
            8_190,
            "memory",
        ),
        (
            ("x = GROUP a BY ('bb", "b", "' IN (1, 1, 1", ", 1", "), c);"),
            8_190,
            "trees",
        ),
    ];
    for (parts, times, wanted) in cases {
        let script = nested(&rt, rt.alloc(), parts, times);
        let end = ended(&rt, rt.alloc(), script.as_str());
        assert_eq!(rt; end, wanted, "{times} times: {script}");
    }
}

// The deepest tree that is let through: 1,024 choices with as many levels around as 64 brackets can have.
#[test]
fn reads_the_deepest_tree(rt: HostRuntime) {
    let alloc = rt.alloc();
    let front = "x = FILTER a BY ";
    let mut script = String::from_str(alloc, front).expect(&rt, "memory");
    add_times(
        &rt,
        &mut script,
        "a OR b AND NOT 1 == 1 + 2 * - (int) f(",
        63,
    );
    script.push_str("CASE").expect(&rt, "memory");
    add_times(&rt, &mut script, " WHEN b THEN c", 1_024);
    script.push_str(" END").expect(&rt, "memory");
    add_times(&rt, &mut script, ")", 63);
    script.push_str(";").expect(&rt, "memory");
    let end = ended(&rt, alloc, script.as_str());
    assert_eq!(rt; end, "trees");
}

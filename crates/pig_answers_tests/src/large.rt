// Each operator over two MiB of random lines.
use crate::crews::{Job, by_crew, first_other};
use crate::plain::is_due;
use pig_chance_tests::Chance;
use pig_setting_tests::Show;
use std::alloc::Global;
use std::process::Abort;
use std::thread::Threads;

/// The bytes of `a`; `b` has a sixteenth.
const SIZE: usize = 2 << 20;

const OPTIONS: &str = "--reducers 3 --split 131072";

/// Lines of a key, which is missing now and then, a word and a number, of so many bytes and few more.
fn lines<R: Abort>(rt: &R, alloc: Global, seed: u64, size: usize) -> String {
    let mut chance = Chance::new(seed);
    let mut text = String::new(alloc);
    for _ in 0..size {
        if text.len() >= size {
            return text;
        }
        let (key, word, number) = (chance.below(9000), chance.below(400), chance.below(2000));
        let line = match chance.below(20) {
            0 => format!(in alloc; "\tw{word}\t{number}\n"),
            1 => format!(in alloc; "{key}\n"),
            _ => format!(in alloc; "{key}\tw{word}\t-{number}\n"),
        };
        let line = line.expect(rt, "memory");
        text.push_str(line.as_str()).expect(rt, "memory");
    }
    text
}

/// A script behind its LOADs.
fn script<R: Abort>(rt: &R, alloc: Global, rest: &str) -> String {
    let script = format!(in alloc;
        "a = LOAD 'a' AS (k:int, w:chararray, n:int); b = LOAD 'b' AS (k:int, w:chararray, n:int); {rest}"
    );
    script.expect(rt, "memory")
}

/// Of each script, which stores lists or none, the crew by which it stores other bytes than by one worker, and whether it
/// stores other lines than the plain answer has.
fn wrong<R: Threads + Sync + Abort>(rt: &R, alloc: Global, rest: &str, listed: bool) -> String {
    let script = script(rt, alloc, rest);
    let (a, b) = (lines(rt, alloc, 1, SIZE), lines(rt, alloc, 2, SIZE / 16));
    let job = Job {
        script: script.as_str(),
        a: a.as_str(),
        b: b.as_str(),
        options: OPTIONS,
        listed,
    };
    let other = first_other(rt, alloc, &job);
    if other.is_empty() && !is_due(rt, alloc, &job, 4) {
        return String::from_str(alloc, "not the plain answer").expect(rt, "memory");
    }
    other
}

/// Whether each script stores bags that are right.
fn check_bags<R: Threads + Sync + Abort>(rt: &R, alloc: Global, scripts: &[&str]) {
    for script in scripts {
        let wrong = wrong(rt, alloc, script, false);
        assert_eq!(rt; wrong.as_str(), "", "{script}");
    }
}

#[test]
fn rows_that_go_one_by_one(rt: HostRuntime) {
    let scripts = [
        "f = FILTER a BY n < -500 AND w IS NOT NULL; STORE f INTO 'p';",
        "f = FOREACH a GENERATE w, k + n, CONCAT(w, w); STORE f INTO 'p';",
        "u = UNION a, b, a; STORE u INTO 'p';",
    ];
    check_bags(&rt, rt.alloc(), &scripts);
}

#[test]
fn rows_that_are_grouped(rt: HostRuntime) {
    let scripts = [
        "g = GROUP a BY k; o = FOREACH g GENERATE group, COUNT(a), SUM(a.n), MIN(a.w); STORE o INTO 'p';",
        "g = GROUP a BY k; STORE g INTO 'p';",
        "g = GROUP a ALL; o = FOREACH g GENERATE COUNT_STAR(a), MAX(a.k); STORE o INTO 'p';",
        "f = FOREACH a GENERATE w, n; d = DISTINCT f; STORE d INTO 'p';",
    ];
    check_bags(&rt, rt.alloc(), &scripts);
}

#[test]
fn rows_that_are_joined(rt: HostRuntime) {
    let scripts = [
        "g = COGROUP a BY k, b BY k; STORE g INTO 'p';",
        "j = JOIN a BY k, b BY k; STORE j INTO 'p';",
        "j = JOIN a BY k LEFT, b BY k; STORE j INTO 'p';",
    ];
    check_bags(&rt, rt.alloc(), &scripts);
}

#[test]
fn rows_that_are_joined_on_all_sides(rt: HostRuntime) {
    let scripts = [
        "j = JOIN a BY k FULL, b BY k; STORE j INTO 'p';",
        "j = JOIN b BY k RIGHT, a BY k; STORE j INTO 'p';",
        "j = JOIN a BY k LEFT, b BY k USING 'replicated'; STORE j INTO 'p';",
    ];
    check_bags(&rt, rt.alloc(), &scripts);
}

#[test]
fn rows_in_order(rt: HostRuntime) {
    for script in [
        "o = ORDER a BY n DESC, w; STORE o INTO 'p';",
        "o = ORDER a BY w, k DESC; l = LIMIT o 5000; STORE l INTO 'p';",
    ] {
        let wrong = wrong(&rt, rt.alloc(), script, true);
        assert_eq!(rt; wrong.as_str(), "", "{script}");
    }
}

/// A bare LIMIT stores any rows, as many as it says.
#[test]
fn any_rows(rt: HostRuntime) {
    let alloc = rt.alloc();
    let script = script(&rt, alloc, "l = LIMIT a 3000; STORE l INTO 'p';");
    let a = lines(&rt, alloc, 1, SIZE);
    let job = Job {
        script: script.as_str(),
        a: a.as_str(),
        b: "",
        options: OPTIONS,
        listed: false,
    };
    for workers in [1, 2, 4, 16] {
        let told = by_crew(&rt, alloc, &job, workers, 5, Show::Lists);
        assert!(rt; told.as_str().starts_with("0 kept 1\nstored p 3000\ndone "));
        assert_eq!(rt; told.as_str().lines().count(), 3000 + 5);
    }
}

//! Lists that are cut into partitions, and the ranks of their rows.
// Trees end by `drop`: one call is cheap to prove, and a tree that dies by name is taken apart variant by variant.
use crate::making::{add, add_row, keys, push, rows};
use pig_rank::{Start, Starts, Summaries, find_starts, rank_rows, sum_up};
use pig_typed::SortKeys;
use std::alloc::Global;
use std::process::Abort;

/// The starts of partitions, which stand between slashes.
fn starts<R: Abort>(rt: &R, alloc: Global, keys: &SortKeys, parts: &str) -> Starts {
    let mut summaries = Summaries::new(alloc);
    for part in parts.split('/') {
        let rows = rows(rt, alloc, part);
        let summary = sum_up(alloc, &rows, keys).expect(rt, "memory");
        drop(rows);
        push(rt, &mut summaries, summary);
    }
    let starts = find_starts(alloc, &summaries, keys).expect(rt, "memory");
    drop(summaries);
    starts
}

/// Adds the words of a partition's ranked rows.
fn add_ranked<R: Abort>(
    rt: &R,
    alloc: Global,
    keys: &SortKeys,
    part: &str,
    start: &Start,
    dense: bool,
    into: &mut String,
) {
    let rows = rows(rt, alloc, part);
    let ranked = rank_rows(alloc, &rows, keys, start, dense).expect(rt, "memory");
    for row in ranked.as_slice() {
        add_row(rt, alloc, row, into);
    }
    drop((rows, ranked));
}

/// The words of all ranked rows, each behind a space, and a mark for each partition that has no start.
fn ranked<R: Abort>(rt: &R, alloc: Global, by: &str, parts: &str, dense: bool) -> String {
    let keys = keys(rt, alloc, by);
    let starts = starts(rt, alloc, &keys, parts);
    let mut told = String::new(alloc);
    for (place, part) in parts.split('/').enumerate() {
        match starts.get(place) {
            Some(start) => add_ranked(rt, alloc, &keys, part, start, dense, &mut told),
            None => add(rt, &mut told, "!"),
        }
    }
    drop((keys, starts));
    told
}

// The sorted rows of the worked example, (3, a), (3, c), (1, b) and (, d), with a slash before each place of the cuts.
fn cut<R: Abort>(rt: &R, alloc: Global, cuts: &[usize]) -> String {
    let mut parts = String::new(alloc);
    for (place, word) in ["3a", "3c", "1b", ".d", ""].iter().enumerate() {
        for cut in cuts {
            if *cut == place {
                add(rt, &mut parts, "/");
            }
        }
        add(rt, &mut parts, " ");
        add(rt, &mut parts, *word);
    }
    parts
}

// Whether the worked rows have their ranks where they are cut so.
fn is_ranked<R: Abort>(rt: &R, alloc: Global, cuts: &[usize]) -> bool {
    let parts = cut(rt, alloc, cuts);
    let plain = ranked(rt, alloc, "-0", parts.as_str(), false);
    let dense = ranked(rt, alloc, "-0", parts.as_str(), true);
    plain.as_str() == " 1:3a 1:3c 3:1b 4:.d" && dense.as_str() == " 1:3a 1:3c 2:1b 3:.d"
}

#[test]
fn worked_rows_in_all_cuts(rt: HostRuntime) {
    assert!(rt; is_ranked(&rt, rt.alloc(), &[]), "one partition");
    for i in 0..5 {
        assert!(rt; is_ranked(&rt, rt.alloc(), &[i]), "two partitions");
        for j in i..5 {
            for k in j..5 {
                assert!(rt; is_ranked(&rt, rt.alloc(), &[i, j, k]), "four partitions");
            }
        }
    }
}

// The keys, sorted rows in partitions, their ranks, and with DENSE.
const RANKED: &str = "\
+0|1a/1b/1c|1:1a 1:1b 1:1c|1:1a 1:1b 1:1c
+0|1a 2a/2b/2c 3a|1:1a 2:2a 2:2b 2:2c 5:3a|1:1a 2:2a 2:2b 2:2c 3:3a
+0|1a 2a/2b//2c/3a|1:1a 2:2a 2:2b 2:2c 5:3a|1:1a 2:2a 2:2b 2:2c 3:3a
+0|1a 2a/2b 3a/3b/3c|1:1a 2:2a 2:2b 4:3a 4:3b 4:3c|1:1a 2:2a 2:2b 3:3a 3:3b 3:3c
+0|//.a .b/.c 1a//1b/|1:.a 1:.b 1:.c 4:1a 4:1b|1:.a 1:.b 1:.c 2:1a 2:1b
+0||
+0|//|
+0 -1|1c/1c 1a/2b/2a|1:1c 1:1c 3:1a 4:2b 5:2a|1:1c 1:1c 2:1a 3:2b 4:2a
-1 +0|1c 2c/2c/1a .. 3.|1:1c 2:2c 2:2c 4:1a 5:.. 6:3.|1:1c 2:2c 2:2c 3:1a 4:.. 5:3.
+5|1a/3b 2c|1:1a 1:3b 1:2c|1:1a 1:3b 1:2c
|2a/1a|1:2a 1:1a|1:2a 1:1a
";

#[test]
fn ranks_of_partitions(rt: HostRuntime) {
    for line in RANKED.lines() {
        let (by, line) = line.split_once('|').unwrap_or((line, ""));
        let (parts, line) = line.split_once('|').unwrap_or((line, ""));
        let (plain, dense) = line.split_once('|').unwrap_or((line, ""));
        let got = ranked(&rt, rt.alloc(), by, parts, false);
        assert_eq!(rt; got.as_str().trim(), plain, "ranks of {parts} by {by}");
        let got = ranked(&rt, rt.alloc(), by, parts, true);
        assert_eq!(rt;
            got.as_str().trim(),
            dense,
            "dense ranks of {parts} by {by}"
        );
    }
}

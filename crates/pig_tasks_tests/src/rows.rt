//! Worked rows: what is stored, whatever the splits and the blocks.
use crate::running::{Run, Telling, stored};
use std::alloc::Global;
use std::process::Abort;

// A row is a text: a script, its inputs `a` and `b` of one piece each, and the lines of its STOREs, each of which has a line `.` behind
// it; all behind an `@` but the script. Lines that are no list stand in the order of their bytes.

/// The script of a row, its two inputs, and its lines.
fn parts(row: &str) -> (&str, &str, &str, &str) {
    let (script, rest) = row.split_once('@').unwrap_or((row, ""));
    let (a, rest) = rest.split_once('@').unwrap_or((rest, ""));
    let (b, want) = rest.split_once('@').unwrap_or((rest, ""));
    (script, a, b, want)
}

fn got<R: Abort>(
    rt: &R,
    alloc: Global,
    row: &str,
    telling: Telling,
    split: u64,
    block: u32,
) -> Vec<u8> {
    let (script, a, b, _) = parts(row);
    let run = Run {
        script,
        a: a.as_bytes(),
        b: b.as_bytes(),
        split,
        block,
    };
    stored(rt, alloc, run, telling)
}

/// What is wrong of a row in these splits and in blocks of 1, 3 and 64 bytes; nothing where each stores its lines.
fn wrong_in<R: Abort>(
    rt: &R,
    alloc: Global,
    row: &str,
    telling: Telling,
    splits: &[u64],
) -> String {
    let (_, _, _, want) = parts(row);
    for split in splits {
        for block in [1, 3, 64] {
            let got = got(rt, alloc, row, telling, *split, block);
            if got.as_slice() != want.as_bytes() {
                let text = String::from_utf8_lossy(alloc, got.as_slice()).expect(rt, "memory");
                let wrong = format!(in alloc; "split {split}, block {block}: {text}");
                return wrong.expect(rt, "memory");
            }
        }
    }
    String::new(alloc)
}

fn check_in<R: Abort>(rt: &R, alloc: Global, row: &str, telling: Telling, splits: &[u64]) {
    let wrong = wrong_in(rt, alloc, row, telling, splits);
    assert!(rt; wrong.is_empty(), "{wrong}");
}

fn check_bags<R: Abort>(rt: &R, alloc: Global, row: &str) {
    check_in(rt, alloc, row, Telling::Bags, &[1, 2, 7]);
}

fn check_lists<R: Abort>(rt: &R, alloc: Global, row: &str) {
    check_in(rt, alloc, row, Telling::Lists, &[1, 2, 7]);
}

/// Ordered by the count, then by the word.
const WORD_COUNT: &str = "\
    a = LOAD 'a' AS (line:chararray);
    w = FOREACH a GENERATE FLATTEN(TOKENIZE(line)) AS word; g = GROUP w BY word PARALLEL 2;
    c = FOREACH g GENERATE group AS word, COUNT(w) AS n; o = ORDER c BY n DESC, word;
    STORE o INTO 'out';\
    @the cat\nthe dog, the end\ncat\n\
    @\
    @the\t3\ncat\t2\ndog\t1\nend\t1\n.\n";

/// No word, and no row at all.
const EMPTY_PIECE: &str = "\
    a = LOAD 'a' AS (line:chararray);
    w = FOREACH a GENERATE FLATTEN(TOKENIZE(line)) AS word; g = GROUP w BY word PARALLEL 2;
    c = FOREACH g GENERATE group AS word, COUNT(w) AS n; o = ORDER c BY n DESC, word;
    STORE o INTO 'out'; z = GROUP a ALL; STORE z INTO 'all';\
    @\
    @\
    @.\n.\n";

/// The rank 1 is not above 2, and one category has one row.
const GOOD_URLS: &str = "\
    urls = LOAD 'a' USING PigStorage(',') AS (url, category:chararray, rank_of:int);
    good = FILTER urls BY rank_of > 2; groups = GROUP good BY category;
    big = FILTER groups BY COUNT(good) > 1;
    o = FOREACH big GENERATE group, SUM(good.rank_of); STORE o INTO 'out';\
    @a,news,5\nb,news,3\nc,shop,9\nd,news,1\n\
    @\
    @news\t8\n.\n";

const EMPTY_GROUP: &str = "\
    a = LOAD 'a' AS (line:chararray); z = GROUP a ALL; STORE z INTO 'all';\
    @\
    @\
    @.\n";

const LINE_ENDS: &str = "\
    a = LOAD 'a' AS (x:int, y:int); STORE a INTO 'out';\
    @1\t2\r\n\n3\t4\
    @\
    @\t\n1\t2\n3\t4\n.\n";

#[test]
fn lines_are_counted_and_stored(rt: HostRuntime) {
    let alloc = rt.alloc();
    check_lists(&rt, alloc, WORD_COUNT);
    check_lists(&rt, alloc, EMPTY_PIECE);
    check_bags(&rt, alloc, GOOD_URLS);
    check_bags(&rt, alloc, EMPTY_GROUP);
    check_bags(&rt, alloc, LINE_ENDS);
}

/// Null keys are one group of each input, and join nothing.
const GROUPED: &str = "\
    a = LOAD 'a' AS (k:int, v:chararray); g = GROUP a BY k; STORE g INTO 'out';\
    @1\tx\n\ty\n\tz\n\
    @1\tp\n\tq\n\
    @\t{(,y),(,z)}\n1\t{(1,x)}\n.\n";

const COGROUPED: &str = "\
    a = LOAD 'a' AS (k:int, v:chararray); b = LOAD 'b' AS (k:int, v:chararray);
    g = COGROUP a BY k, b BY k; STORE g INTO 'out';\
    @1\tx\n\ty\n\tz\n\
    @1\tp\n\tq\n\
    @\t{(,y),(,z)}\t{}\n\t{}\t{(,q)}\n1\t{(1,x)}\t{(1,p)}\n.\n";

const JOINED: &str = "\
    a = LOAD 'a' AS (k:int, v:chararray); b = LOAD 'b' AS (k:int, v:chararray);
    j = JOIN a BY k, b BY k; STORE j INTO 'out';\
    @1\tx\n\ty\n\tz\n\
    @1\tp\n\tq\n\
    @1\tx\t1\tp\n.\n";

const JOINED_FULL: &str = "\
    a = LOAD 'a' AS (k:int, v:chararray); b = LOAD 'b' AS (k:int, v:chararray);
    j = JOIN a BY k FULL, b BY k; STORE j INTO 'out';\
    @1\tx\n\ty\n\tz\n\
    @1\tp\n\tq\n\
    @\t\t\tq\n\ty\t\t\n\tz\t\t\n1\tx\t1\tp\n.\n";

#[test]
fn null_keys_go_apart(rt: HostRuntime) {
    let alloc = rt.alloc();
    check_bags(&rt, alloc, GROUPED);
    check_bags(&rt, alloc, COGROUPED);
    check_bags(&rt, alloc, JOINED);
    check_bags(&rt, alloc, JOINED_FULL);
}

/// The same rows whichever input is copied.
const REPLICATED: &str = "\
    a = LOAD 'a' AS (k:int, v:chararray); b = LOAD 'b' AS (k:int, v:chararray);
    j = JOIN a BY k, b BY k USING 'replicated'; STORE j INTO 'out';\
    @1\tx\n\ty\n\tz\n\
    @1\tp\n\tq\n\
    @1\tx\t1\tp\n.\n";

const REPLICATED_LEFT: &str = "\
    a = LOAD 'a' AS (k:int, v:chararray); b = LOAD 'b' AS (k:int, v:chararray);
    j = JOIN a BY k LEFT, b BY k USING 'replicated'; STORE j INTO 'out';\
    @1\tx\n\ty\n\tz\n\
    @1\tp\n\tq\n\
    @\ty\t\t\n\tz\t\t\n1\tx\t1\tp\n.\n";

/// Two copied inputs, of which the second is a path from the first. The key 3 is in no row of `a`, and 4 in no row of `b`.
const REPLICATED_THREE: &str = "\
    a = LOAD 'a' AS (k:int, v:chararray); b = LOAD 'b' AS (k:int, v:chararray);
    c = FILTER b BY v != 'p'; j = JOIN a BY k, b BY k, c BY k USING 'replicated';
    STORE j INTO 'out';\
    @1\tx\n2\ty\n1\tz\n\tw\n4\tu\n\
    @1\tp\n3\tq\n1\tr\n\ts\n2\tt\n\
    @1\tx\t1\tp\t1\tr\n1\tx\t1\tr\t1\tr\n1\tz\t1\tp\t1\tr\n1\tz\t1\tr\t1\tr\n\
    2\ty\t2\tt\t2\tt\n.\n";

/// Rows that come on two paths are joined with the same copies.
const REPLICATED_UNION: &str = "\
    a = LOAD 'a' AS (k:int, v:chararray); b = LOAD 'b' AS (k:int, v:chararray);
    u = UNION a, b; j = JOIN u BY k, b BY k USING 'replicated';
    l = JOIN u BY k LEFT, a BY k USING 'replicated'; STORE j INTO 'j'; STORE l INTO 'l';\
    @1\tx\n2\ty\n\
    @2\tp\n\tq\n1\tr\n\
    @1\tr\t1\tr\n1\tx\t1\tr\n2\tp\t2\tp\n2\ty\t2\tp\n.\n\
    \tq\t\t\n1\tr\t1\tx\n1\tx\t1\tx\n2\tp\t2\ty\n2\ty\t2\ty\n.\n";

/// Of the copies of a UNION those of both paths are probed.
const REPLICATED_BY_UNION: &str = "\
    a = LOAD 'a' AS (k:int, v:chararray); b = LOAD 'b' AS (k:int, v:chararray);
    u = UNION a, b; l = JOIN a BY k LEFT, u BY k USING 'replicated'; STORE l INTO 'l';\
    @1\tx\n\ty\n\
    @2\tp\n\tq\n1\tr\n\
    @\ty\t\t\n1\tx\t1\tr\n1\tx\t1\tx\n.\n";

const NONE_PROBES: &str = "\
    a = LOAD 'a' AS (k:int, v:chararray); b = LOAD 'b' AS (k:int, v:chararray);
    j = JOIN a BY k, b BY k USING 'replicated'; l = JOIN a BY k LEFT, b BY k USING 'replicated';
    STORE j INTO 'j'; STORE l INTO 'l';\
    @\
    @1\tp\n\tq\n\
    @.\n.\n";

const NONE_COPIED: &str = "\
    a = LOAD 'a' AS (k:int, v:chararray); b = LOAD 'b' AS (k:int, v:chararray);
    j = JOIN a BY k, b BY k USING 'replicated'; l = JOIN a BY k LEFT, b BY k USING 'replicated';
    STORE j INTO 'j'; STORE l INTO 'l';\
    @1\tx\n\ty\n\
    @\
    @.\n\ty\t\t\n1\tx\t\t\n.\n";

/// Partitions of a GROUP probe, and then those of the JOIN, which are counted.
const REPLICATED_IN_TURN: &str = "\
    a = LOAD 'a' AS (k:int, v:chararray); b = LOAD 'b' AS (k:int, v:chararray);
    g = GROUP a BY k; c = FOREACH g GENERATE group AS k, COUNT(a) AS n;
    j = JOIN c BY k, b BY k USING 'replicated'; i = JOIN j BY n, a BY k USING 'replicated';
    h = GROUP i ALL; d = FOREACH h GENERATE COUNT(i); STORE i INTO 'i'; STORE d INTO 'd';\
    @1\tx\n2\ty\n1\tz\n\
    @1\tp\n2\tq\n\
    @1\t2\t1\tp\t2\ty\n2\t1\t2\tq\t1\tx\n2\t1\t2\tq\t1\tz\n.\n3\n.\n";

#[test]
fn copies_are_probed(rt: HostRuntime) {
    let alloc = rt.alloc();
    check_bags(&rt, alloc, REPLICATED);
    check_bags(&rt, alloc, REPLICATED_LEFT);
    check_bags(&rt, alloc, REPLICATED_THREE);
    check_bags(&rt, alloc, REPLICATED_UNION);
    check_bags(&rt, alloc, REPLICATED_BY_UNION);
    check_bags(&rt, alloc, NONE_PROBES);
    check_bags(&rt, alloc, NONE_COPIED);
    check_bags(&rt, alloc, REPLICATED_IN_TURN);
}

const NULL_AGGREGATES: &str = "\
    a = LOAD 'a' AS (k:chararray, x:int); g = GROUP a BY k;
    o = FOREACH g GENERATE group, COUNT(a.x), COUNT_STAR(a.x), SUM(a.x), MIN(a.x);
    STORE o INTO 'out';\
    @g\t\ng\t\n\
    @\
    @g\t0\t2\t\t\n.\n";

const WRAPPING_ARITHMETIC: &str = "\
    a = LOAD 'a' AS (a:int, b:int); o = FOREACH a GENERATE a+1, b/2, b%2, b/0, (long)a+1;
    STORE o INTO 'out';\
    @2147483647\t-7\n\
    @\
    @-2147483648\t-3\t-1\t\t2147483648\n.\n";

const WRAPPING_SUM: &str = "\
    a = LOAD 'a' AS (x:long); g = GROUP a ALL; o = FOREACH g GENERATE SUM(a.x);
    STORE o INTO 'out';\
    @9223372036854775807\n1\n5\n\
    @\
    @-9223372036854775803\n.\n";

/// The row whose first field is null is not counted.
const COUNTED_COLUMN: &str = "\
    t = LOAD 'a' AS (a:chararray, b:int); g = GROUP t BY b;
    o = FOREACH g GENERATE group, COUNT(t); STORE o INTO 'out';\
    @\t1\nx\t1\n\
    @\
    @1\t1\n.\n";

#[test]
fn numbers_are_folded(rt: HostRuntime) {
    let alloc = rt.alloc();
    check_bags(&rt, alloc, NULL_AGGREGATES);
    check_bags(&rt, alloc, WRAPPING_ARITHMETIC);
    check_bags(&rt, alloc, WRAPPING_SUM);
    check_bags(&rt, alloc, COUNTED_COLUMN);
    check_in(&rt, alloc, WRAPPING_SUM, Telling::Bags, &[3, 24]);
}

/// Equal keys go by row.
const DESCENDING: &str = "\
    a = LOAD 'a' AS (k:int, v:chararray); o = ORDER a BY k DESC; STORE o INTO 'out';\
    @2\ta\n\tb\n3\tc\n2\tA\n\
    @\
    @3\tc\n2\tA\n2\ta\n\tb\n.\n";

const WIDENED: &str = "\
    a = LOAD 'a' AS (x:int); b = LOAD 'b' AS (x:long); u = UNION a, b; o = ORDER u BY x;
    STORE o INTO 'out';\
    @1\n\
    @2147483648\n\
    @1\n2147483648\n.\n";

/// Of a group the first row by number, and all of them as an inner bag.
const NESTED_ORDER: &str = "\
    a = LOAD 'a' AS (k:chararray, n:int, s:chararray); g = GROUP a BY k;
    r = FOREACH g { o = ORDER a BY n; t = LIMIT o 1; GENERATE group, t, o.(n,s); };
    STORE r INTO 'out';\
    @k\t2\tb\nk\t1\tz\nk\t1\ty\n\
    @\
    @k\t{(k,1,y)}\t{(1,y),(1,z),(2,b)}\n.\n";

#[test]
fn rows_are_ordered(rt: HostRuntime) {
    let alloc = rt.alloc();
    check_lists(&rt, alloc, DESCENDING);
    check_lists(&rt, alloc, WIDENED);
    check_bags(&rt, alloc, NESTED_ORDER);
}

const RANKED: &str = "\
    a = LOAD 'a' AS (k:int, v:chararray); r = RANK a BY k DESC; STORE r INTO 'out';\
    @2\ta\n\tb\n3\tc\n2\tA\n\
    @\
    @1\t3\tc\n2\t2\tA\n2\t2\ta\n4\t\tb\n.\n";

const RANKED_DENSE: &str = "\
    a = LOAD 'a' AS (k:int, v:chararray); r = RANK a BY k DESC DENSE; STORE r INTO 'out';\
    @2\ta\n\tb\n3\tc\n2\tA\n\
    @\
    @1\t3\tc\n2\t2\tA\n2\t2\ta\n3\t\tb\n.\n";

#[test]
fn rows_are_ranked(rt: HostRuntime) {
    let alloc = rt.alloc();
    check_bags(&rt, alloc, RANKED);
    check_bags(&rt, alloc, RANKED_DENSE);
}

const NESTED_TEXT: &str = "\
    a = LOAD 'a' AS (b:bag{t:(x:int)}, m:map[int], t:tuple(a:int,b:int)); STORE a INTO 'out';\
    @{(1),(2}\t[k#1,k#2]\t(1,2)\n\
    @\
    @\t[k#2]\t(1,2)\n.\n";

/// A comma within a tuple ends the field too.
const CUT_TUPLE: &str = "\
    a = LOAD 'a' USING PigStorage(',') AS (t:(a:int,b:int), c:int); STORE a INTO 'out';\
    @(1,2),5\n\
    @\
    @\t\n.\n";

/// An empty bag gives no row, and a null one a null.
const FLATTENED: &str = "\
    i = LOAD 'a' AS (k:int, a:{(x:int)}, b:{(y:int)});
    o = FOREACH i GENERATE k, FLATTEN(a), FLATTEN(b); STORE o INTO 'out';\
    @1\t{(1),(2)}\t{(7)}\n2\t{}\t{(8)}\n3\t\t{(9)}\n\
    @\
    @1\t1\t7\n1\t2\t7\n3\t\t9\n.\n";

/// A null goes nowhere.
const SPLIT_BRANCHES: &str = "\
    a = LOAD 'a' AS (x:int); SPLIT a INTO b IF x > 2, c IF x < 2, d OTHERWISE;
    STORE b INTO 'b'; STORE c INTO 'c'; STORE d INTO 'd';\
    @1\n2\n3\n\n\
    @\
    @3\n.\n1\n.\n2\n.\n";

/// Characters of two bytes.
const TEXT_FUNCTIONS: &str = "\
    a = LOAD 'a' AS (s:chararray, t:chararray, n:int);
    o = FOREACH a GENERATE SIZE(s), SUBSTRING(s,1,3), SUBSTRING(s,3,9), INDEXOF(t,'na'),
    INDEXOF(t,'x'), ABS(n), STARTSWITH(t,'ba'), ENDSWITH(t,'ba'), CONCAT(s,t);
    STORE o INTO 'out';\
    @h\u{e9}llo\tbanana\t-5\n\
    @\
    @5\t\u{e9}l\tlo\t2\t-1\t5\ttrue\tfalse\th\u{e9}llobanana\n.\n";

const MAP_LOOK_UPS: &str = "\
    a = LOAD 'a' AS (m:map[]);
    o = FOREACH a GENERATE (int)m#'a' + 1, m#'zz', (m#'b' == 'x' ? 'yes' : 'no');
    STORE o INTO 'out';\
    @[a#1,b#x]\n\
    @\
    @2\t\tyes\n.\n";

#[test]
fn values_are_read_and_written(rt: HostRuntime) {
    let alloc = rt.alloc();
    check_bags(&rt, alloc, NESTED_TEXT);
    check_bags(&rt, alloc, CUT_TUPLE);
    check_bags(&rt, alloc, FLATTENED);
    check_bags(&rt, alloc, SPLIT_BRANCHES);
    check_bags(&rt, alloc, TEXT_FUNCTIONS);
    check_bags(&rt, alloc, MAP_LOOK_UPS);
}

/// A bare LIMIT, stored twice.
const LIMITED: &str = "\
    a = LOAD 'a' AS (x:int); l = LIMIT a 2; STORE l INTO 'p'; STORE l INTO 'q';\
    @1\n2\n3\n\
    @\
    @";

const NONE_KEPT: &str = "\
    a = LOAD 'a' AS (x:int); l = LIMIT a 0; STORE l INTO 'p'; STORE l INTO 'q';\
    @1\n2\n3\n\
    @\
    @.\n.\n";

const ALL_KEPT: &str = "\
    a = LOAD 'a' AS (x:int); l = LIMIT a 5; STORE l INTO 'p'; STORE l INTO 'q';\
    @1\n2\n3\n\
    @\
    @1\n2\n3\n.\n1\n2\n3\n.\n";

/// Whether both STOREs have the same two lines of the three.
fn keeps_two<R: Abort>(rt: &R, alloc: Global, split: u64, block: u32) -> bool {
    let got = got(rt, alloc, LIMITED, Telling::Bags, split, block);
    for want in [
        "1\n2\n.\n1\n2\n.\n",
        "1\n3\n.\n1\n3\n.\n",
        "2\n3\n.\n2\n3\n.\n",
    ] {
        if got.as_slice() == want.as_bytes() {
            return true;
        }
    }
    false
}

fn check_limit<R: Abort>(rt: &R, alloc: Global, split: u64) {
    for block in [1, 3, 64] {
        assert!(rt;
            keeps_two(rt, alloc, split, block),
            "split {split}, block {block}"
        );
    }
}

#[test]
fn a_bare_limit_keeps_the_same_rows_for_all(rt: HostRuntime) {
    let alloc = rt.alloc();
    check_bags(&rt, alloc, NONE_KEPT);
    check_bags(&rt, alloc, ALL_KEPT);
    for split in [1, 2, 7] {
        check_limit(&rt, alloc, split);
    }
}

// Lines begin at 0, 5 and 6 of nine bytes. Each part, with a bar behind it, has those that begin in its split.
const BY_ONE: &str = "\
    a = LOAD 'a' AS (x:int, y:int); STORE a INTO 'out';\
    @1\t2\r\n\n3\t4@@1\t2\n|||||\t\n|3\t4\n|||";

const BY_TWO: &str = "\
    a = LOAD 'a' AS (x:int, y:int); STORE a INTO 'out';\
    @1\t2\r\n\n3\t4@@1\t2\n||\t\n|3\t4\n||";

const BY_SEVEN: &str = "\
    a = LOAD 'a' AS (x:int, y:int); STORE a INTO 'out';\
    @1\t2\r\n\n3\t4@@1\t2\n\t\n3\t4\n||";

const IN_ONE_PART: &str = "\
    a = LOAD 'a' AS (x:int, y:int); STORE a INTO 'out';\
    @1\t2\r\n\n3\t4@@1\t2\n\t\n3\t4\n|";

#[test]
fn parts_have_the_lines_of_their_splits(rt: HostRuntime) {
    let alloc = rt.alloc();
    check_in(&rt, alloc, BY_ONE, Telling::Parts, &[1]);
    check_in(&rt, alloc, BY_TWO, Telling::Parts, &[2]);
    check_in(&rt, alloc, BY_SEVEN, Telling::Parts, &[7]);
    check_in(&rt, alloc, IN_ONE_PART, Telling::Parts, &[1_000_000]);
}

// Scripts that run, over memory, on one host.
use pig_setting_tests::{Scene, Show, told};
use std::alloc::Global;
use std::process::Abort;
use std::thread::Threads;

/// A script is to answer and to leave this over two inputs.
fn check<R: Threads + Sync + Abort>(
    rt: &R,
    alloc: Global,
    script: &str,
    (a, b): (&str, &str),
    show: Show,
    want: &str,
) {
    let scene = Scene {
        b,
        show,
        ..Scene::new(script, a)
    };
    let got = told(rt, alloc, &scene).expect(rt, "memory");
    assert_eq!(rt; got.as_str(), want, "at {script}");
}

const WORD_COUNT: &str = "a = LOAD 'a' AS (line:chararray);
w = FOREACH a GENERATE FLATTEN(TOKENIZE(line)) AS word;
g = GROUP w BY word PARALLEL 2;
c = FOREACH g GENERATE group AS word, COUNT(w) AS n;
o = ORDER c BY n DESC, word;
STORE o INTO 'p';";

/// Four words are handed on to be counted, and four counts to be ordered.
#[test]
fn counts_words(rt: HostRuntime) {
    let input = "the cat\nthe dog, the end\ncat\n";
    let want =
        "0 kept 0\nstored p 4\ndone 3 8 4\np whole\nthe\t3\ncat\t2\ndog\t1\nend\t1\nq none\n";
    check(&rt, rt.alloc(), WORD_COUNT, (input, ""), Show::Lists, want);
}

const BARE_LIMIT: &str = "a = LOAD 'a' AS (x:int);
l = LIMIT a 2;
STORE l INTO 'p';
STORE l INTO 'q';";

/// One piece in one split: its task hands on the first two rows, of which none is over.
#[test]
fn keeps_the_same_rows_for_both(rt: HostRuntime) {
    let want = "0 kept 1\nstored p 2\nstored q 2\ndone 3 2 4\np whole\n1\n2\nq whole\n1\n2\n";
    let inputs = ("1\n2\n3\n", "");
    check(&rt, rt.alloc(), BARE_LIMIT, inputs, Show::Bags, want);
}

const NULL_KEYS: &str = "a = LOAD 'a' AS (k:int, v:chararray);
b = LOAD 'b' AS (k:int, v:chararray);
g = COGROUP a BY k, b BY k;
j = JOIN a BY k FULL, b BY k;
STORE g INTO 'p';
STORE j INTO 'q';";

#[test]
fn null_keys_stand_apart(rt: HostRuntime) {
    let inputs = ("1\tx\n\ty\n\tz\n", "1\tp\n\tq\n");
    let want = "0 kept 0\nstored p 3\nstored q 4\ndone 10 10 7\np whole\n\
        \t{(,y),(,z)}\t{}\n\t{}\t{(,q)}\n1\t{(1,x)}\t{(1,p)}\nq whole\n\
        \t\t\tq\n\ty\t\t\n\tz\t\t\n1\tx\t1\tp\n";
    check(&rt, rt.alloc(), NULL_KEYS, inputs, Show::Bags, want);
}

/// A script over `a` and `b`, what these hold, and what it answers and stores.
type Case = (&'static str, &'static str, &'static str, &'static str);

/// The worked rows in turn; none behind the last.
fn case(number: u32) -> Option<Case> {
    match number {
        0 => Some((
            "urls = LOAD 'a' USING PigStorage(',') AS (url, category:chararray, rank_of:int);
            good = FILTER urls BY rank_of > 2; groups = GROUP good BY category;
            big = FILTER groups BY COUNT(good) > 1;
            o = FOREACH big GENERATE group, SUM(good.rank_of); STORE o INTO 'p';",
            "a,news,5\nb,news,3\nc,shop,9\nd,news,1\n",
            "",
            "0 kept 0\nstored p 1\ndone 4 3 1\np whole\nnews\t8\nq none\n",
        )),
        1 => Some((
            "a = LOAD 'a' AS (line:chararray);
            w = FOREACH a GENERATE FLATTEN(TOKENIZE(line)) AS word; g = GROUP w BY word;
            c = FOREACH g GENERATE group AS word, COUNT(w) AS n; o = ORDER c BY n DESC, word;
            STORE o INTO 'p'; z = GROUP a ALL; STORE z INTO 'q';",
            "",
            "",
            "0 kept 0\nstored p 0\nstored q 0\ndone 0 0 0\np whole\nq whole\n",
        )),
        2 => Some((
            "a = LOAD 'a' AS (x:int, y:int); STORE a INTO 'p';",
            "1\t2\r\n\n3\t4",
            "",
            "0 kept 0\nstored p 3\ndone 3 0 3\np whole\n\t\n1\t2\n3\t4\nq none\n",
        )),
        3 => Some((
            "a = LOAD 'a' AS (k:int, v:chararray); b = LOAD 'b' AS (k:int, v:chararray);
            g = GROUP a BY k; j = JOIN a BY k, b BY k; STORE g INTO 'p'; STORE j INTO 'q';",
            "1\tx\n\ty\n\tz\n",
            "1\tp\n\tq\n",
            "0 kept 0\nstored p 2\nstored q 1\ndone 8 8 3\np whole\n\t{(,y),(,z)}\n1\t{(1,x)}\nq whole\n1\tx\t1\tp\n",
        )),
        4 => Some((
            "a = LOAD 'a' AS (k:chararray, x:int); g = GROUP a BY k;
            o = FOREACH g GENERATE group, COUNT(a.x), COUNT_STAR(a.x), SUM(a.x), MIN(a.x);
            STORE o INTO 'p';",
            "g\t\ng\t\n",
            "",
            "0 kept 0\nstored p 1\ndone 2 1 1\np whole\ng\t0\t2\t\t\nq none\n",
        )),
        _ => middle_case(number),
    }
}

fn middle_case(number: u32) -> Option<Case> {
    match number {
        5 => Some((
            "a = LOAD 'a' AS (a:int, b:int);
            o = FOREACH a GENERATE a+1, b/2, b%2, b/0, (long)a+1; STORE o INTO 'p';",
            "2147483647\t-7\n",
            "",
            "0 kept 0\nstored p 1\ndone 1 0 1\np whole\n-2147483648\t-3\t-1\t\t2147483648\nq none\n",
        )),
        6 => Some((
            "a = LOAD 'a' AS (x:long); g = GROUP a ALL; o = FOREACH g GENERATE SUM(a.x);
            STORE o INTO 'p';",
            "9223372036854775807\n1\n5\n",
            "",
            "0 kept 0\nstored p 1\ndone 3 1 1\np whole\n-9223372036854775803\nq none\n",
        )),
        7 => Some((
            "t = LOAD 'a' AS (a:chararray, b:int); g = GROUP t BY b;
            o = FOREACH g GENERATE group, COUNT(t); STORE o INTO 'p';",
            "\t1\nx\t1\n",
            "",
            "0 kept 0\nstored p 1\ndone 2 1 1\np whole\n1\t1\nq none\n",
        )),
        8 => Some((
            "a = LOAD 'a' AS (x:int); l = LIMIT a 0; m = LIMIT a 5;
            STORE l INTO 'p'; STORE m INTO 'q';",
            "1\n2\n3\n",
            "",
            "0 kept 2\nstored p 0\nstored q 3\ndone 6 3 3\np whole\nq whole\n1\n2\n3\n",
        )),
        9 => Some((
            "a = LOAD 'a' AS (k:chararray, n:int, s:chararray); g = GROUP a BY k;
            r = FOREACH g { o = ORDER a BY n; t = LIMIT o 1; GENERATE group, t, o.(n,s); };
            STORE r INTO 'p';",
            "k\t2\tb\nk\t1\tz\nk\t1\ty\n",
            "",
            "0 kept 0\nstored p 1\ndone 3 3 1\np whole\nk\t{(k,1,y)}\t{(1,y),(1,z),(2,b)}\nq none\n",
        )),
        _ => later_case(number),
    }
}

fn later_case(number: u32) -> Option<Case> {
    match number {
        10 => Some((
            "a = LOAD 'a' AS (b:bag{t:(x:int)}, m:map[int], t:tuple(a:int,b:int));
            STORE a INTO 'p';",
            "{(1),(2}\t[k#1,k#2]\t(1,2)\n",
            "",
            "0 kept 0\nstored p 1\ndone 1 0 1\np whole\n\t[k#2]\t(1,2)\nq none\n",
        )),
        11 => Some((
            "a = LOAD 'a' USING PigStorage(',') AS (t:(a:int,b:int), c:int); STORE a INTO 'p';",
            "(1,2),5\n",
            "",
            "0 kept 0\nstored p 1\ndone 1 0 1\np whole\n\t\nq none\n",
        )),
        12 => Some((
            "a = LOAD 'a' AS (k:int, a:{(x:int)}, b:{(y:int)});
            o = FOREACH a GENERATE k, FLATTEN(a), FLATTEN(b); STORE o INTO 'p';",
            "1\t{(1),(2)}\t{(7)}\n2\t{}\t{(8)}\n3\t\t{(9)}\n",
            "",
            "0 kept 0\nstored p 3\ndone 3 0 3\np whole\n1\t1\t7\n1\t2\t7\n3\t\t9\nq none\n",
        )),
        13 => Some((
            "a = LOAD 'a' AS (x:int); SPLIT a INTO b IF x > 2, c IF x < 2, d OTHERWISE;
            STORE b INTO 'p'; STORE d INTO 'q';",
            "1\n2\n3\n\n",
            "",
            "0 kept 0\nstored p 1\nstored q 1\ndone 8 0 2\np whole\n3\nq whole\n2\n",
        )),
        14 => Some((
            "a = LOAD 'a' AS (s:chararray, t:chararray, n:int);
            o = FOREACH a GENERATE SIZE(s), SUBSTRING(s,1,3), SUBSTRING(s,3,9), INDEXOF(t,'na'),
            INDEXOF(t,'x'), ABS(n), STARTSWITH(t,'ba'), ENDSWITH(t,'ba'), CONCAT(s,t);
            STORE o INTO 'p';",
            "héllo\tbanana\t-5\n",
            "",
            "0 kept 0\nstored p 1\ndone 1 0 1\np whole\n5\tél\tlo\t2\t-1\t5\ttrue\tfalse\théllobanana\nq none\n",
        )),
        15 => Some((
            "a = LOAD 'a' AS (m:map[]);
            o = FOREACH a GENERATE (int)m#'a' + 1, m#'zz', (m#'b' == 'x' ? 'yes' : 'no');
            STORE o INTO 'p';",
            "[a#1,b#x]\n",
            "",
            "0 kept 0\nstored p 1\ndone 1 0 1\np whole\n2\t\tyes\nq none\n",
        )),
        16 => Some((
            "a = LOAD 'a' AS (x:int);
            o = FOREACH a GENERATE CASE x WHEN 1 THEN 'one' ELSE 'more' END, x IN (2, 3);
            STORE o INTO 'p';",
            "1\n2\n\n",
            "",
            "0 kept 0\nstored p 3\ndone 3 0 3\np whole\n\t\nmore\ttrue\none\tfalse\nq none\n",
        )),
        _ => None,
    }
}

/// Each worked row.
#[test]
fn worked_rows_store_their_lines(rt: HostRuntime) {
    for number in 0..17 {
        let (script, a, b, want) = case(number).unwrap_or(("", "", "", ""));
        check(&rt, rt.alloc(), script, (a, b), Show::Bags, want);
    }
}

/// Rows behind an ORDER, in order.
#[test]
fn ordered_rows_are_lists(rt: HostRuntime) {
    let script = "a = LOAD 'a' AS (k:int, v:chararray); o = ORDER a BY k DESC; STORE o INTO 'p';";
    let inputs = ("2\ta\n\tb\n3\tc\n2\tA\n", "");
    let want = "0 kept 0\nstored p 4\ndone 4 4 4\np whole\n3\tc\n2\tA\n2\ta\n\tb\nq none\n";
    check(&rt, rt.alloc(), script, inputs, Show::Lists, want);
    let script = "x = LOAD 'a' AS (x:int); y = LOAD 'b' AS (x:long); u = UNION x, y;
        o = ORDER u BY x; STORE o INTO 'p';";
    let inputs = ("1\n", "2147483648\n");
    let want = "0 kept 0\nstored p 2\ndone 2 2 2\np whole\n1\n2147483648\nq none\n";
    check(&rt, rt.alloc(), script, inputs, Show::Lists, want);
}

// Worked rows: what is stored by crews, beside the plain answer.
use crate::crews::{Job, first_other};
use crate::plain::is_due;
use std::alloc::Global;
use std::process::Abort;
use std::thread::Threads;

/// Scripts over two inputs: whether a script stores lists, its text, and the inputs, where a bar stands for a line end.
const ROWS: &str = "\
list @ a = LOAD 'a' AS (line:chararray); w = FOREACH a GENERATE FLATTEN(TOKENIZE(line)) AS word; g = GROUP w BY word PARALLEL 2; c = FOREACH g GENERATE group AS word, COUNT(w) AS n; o = ORDER c BY n DESC, word; STORE o INTO 'p'; @ the cat|the dog, the end|cat| @ \n\
bag @ u = LOAD 'a' USING PigStorage(',') AS (url, category:chararray, rank_of:int); good = FILTER u BY rank_of > 2; g = GROUP good BY category; big = FILTER g BY COUNT(good) > 1; o = FOREACH big GENERATE group, SUM(good.rank_of); STORE o INTO 'p'; @ a,news,5|b,news,3|c,shop,9|d,news,1| @ \n\
bag @ a = LOAD 'a' AS (line:chararray); g = GROUP a ALL; STORE g INTO 'p'; @  @ \n\
bag @ a = LOAD 'a' AS (x:int, y:int); STORE a INTO 'p'; @ 1\t2\r||3\t4 @ \n\
bag @ a = LOAD 'a' AS (k:int, v:chararray); b = LOAD 'b' AS (k:int, v:chararray); g = GROUP a BY k; c = COGROUP a BY k, b BY k; STORE g INTO 'p'; STORE c INTO 'q'; @ 1\tx|\ty|\tz| @ 1\tp|\tq|\n\
bag @ a = LOAD 'a' AS (k:int, v:chararray); b = LOAD 'b' AS (k:int, v:chararray); j = JOIN a BY k, b BY k; f = JOIN a BY k FULL, b BY k; STORE j INTO 'p'; STORE f INTO 'q'; @ 1\tx|\ty|\tz| @ 1\tp|\tq|\n\
bag @ a = LOAD 'a' AS (k:int, v:chararray); b = LOAD 'b' AS (k:int, v:chararray); j = JOIN a BY k, b BY k USING 'replicated'; l = JOIN a BY k LEFT, b BY k USING 'replicated'; STORE j INTO 'p'; STORE l INTO 'q'; @ 1\tx|\ty|\tz| @ 1\tp|\tq|\n\
bag @ a = LOAD 'a' AS (k:int, v:chararray); b = LOAD 'b' AS (k:int, v:chararray); u = UNION a, b; g = GROUP b BY k; j = JOIN u BY k, b BY k, g BY group USING 'replicated'; STORE j INTO 'p'; @ 1\tx|2\ty|\tz| @ 1\tp|1\tq|2\tr|\n\
list @ a = LOAD 'a' AS (k:int, v:chararray); r = RANK a BY k DESC, v; d = RANK a BY k DENSE; o = ORDER r BY v; STORE o INTO 'p'; p = ORDER d BY v; STORE p INTO 'q'; @ 2\ta|1\tb|2\tc|\td|1\te|2\ta| @ \n\
bag @ a = LOAD 'a' AS (k:chararray, x:int); g = GROUP a BY k; o = FOREACH g GENERATE group, COUNT(a.x), COUNT_STAR(a.x), SUM(a.x), MIN(a.x); STORE o INTO 'p'; @ g\t|g\t| @ \n\
bag @ a = LOAD 'a' AS (a:int, b:int); o = FOREACH a GENERATE a+1, b/2, b%2, b/0, (long)a+1; STORE o INTO 'p'; @ 2147483647\t-7| @ \n\
bag @ a = LOAD 'a' AS (x:long); g = GROUP a ALL; o = FOREACH g GENERATE SUM(a.x); STORE o INTO 'p'; @ 9223372036854775807|1|5| @ \n\
bag @ t = LOAD 'a' AS (a:chararray, b:int); g = GROUP t BY b; o = FOREACH g GENERATE group, COUNT(t); STORE o INTO 'p'; @ \t1|x\t1| @ \n\
list @ a = LOAD 'a' AS (k:int, v:chararray); o = ORDER a BY k DESC; STORE o INTO 'p'; @ 2\ta|\tb|3\tc|2\tA| @ \n\
list @ x = LOAD 'a' AS (x:int); y = LOAD 'b' AS (x:long); u = UNION x, y; o = ORDER u BY x; STORE o INTO 'p'; @ 1| @ 2147483648|\n\
bag @ a = LOAD 'a' AS (k:chararray, n:int, s:chararray); g = GROUP a BY k; r = FOREACH g { o = ORDER a BY n; t = LIMIT o 1; GENERATE group, t, o.(n,s); }; STORE r INTO 'p'; @ k\t2\tb|k\t1\tz|k\t1\ty| @ \n\
bag @ a = LOAD 'a' AS (b:bag{t:(x:int)}, m:map[int], t:tuple(a:int,b:int)); STORE a INTO 'p'; @ {(1),(2}\t[k#1,k#2]\t(1,2)| @ \n\
bag @ a = LOAD 'a' AS (k:int, a:{(x:int)}, b:{(y:int)}); o = FOREACH a GENERATE k, FLATTEN(a), FLATTEN(b); STORE o INTO 'p'; @ 1\t{(1),(2)}\t{(7)}|2\t{}\t{(8)}|3\t\t{(9)}| @ \n\
bag @ a = LOAD 'a' AS (x:int); SPLIT a INTO b IF x > 2, c IF x < 2, d OTHERWISE; u = UNION b, c; STORE u INTO 'p'; STORE d INTO 'q'; @ 1|2|3|| @ \n\
bag @ a = LOAD 'a' AS (s:chararray, t:chararray, n:int); o = FOREACH a GENERATE SIZE(s), SUBSTRING(s,1,3), SUBSTRING(s,3,9), INDEXOF(t,'na'), INDEXOF(t,'x'), ABS(n), STARTSWITH(t,'ba'), ENDSWITH(t,'ba'), CONCAT(s,t); STORE o INTO 'p'; @ h\u{e9}llo\tbanana\t-5| @ \n\
bag @ a = LOAD 'a' AS (m:map[]); o = FOREACH a GENERATE (int)m#'a' + 1, m#'zz', (m#'b' == 'x' ? 'yes' : 'no'); STORE o INTO 'p'; @ [a#1,b#x]| @ \n\
bag @ a = LOAD 'a' AS (k:int, v:int); d = DISTINCT a; f = FILTER d BY k > 1; j = JOIN f BY k, d BY v; g = GROUP j BY $0; o = FOREACH g GENERATE group, COUNT(j); STORE o INTO 'p'; STORE j INTO 'q'; @ 1\t2|2\t2|3\t1|2\t2|2\t3|\t2| @ \n";

/// A row's parts.
fn parts(line: &str) -> (bool, &str, &str, &str) {
    let (kind, rest) = line.split_once(" @ ").unwrap_or((line, ""));
    let (script, rest) = rest.split_once(" @ ").unwrap_or((rest, ""));
    let (a, b) = rest.split_once(" @ ").unwrap_or((rest, ""));
    (kind == "list", script, a, b)
}

/// A text with line ends for bars.
fn lines<R: Abort>(rt: &R, alloc: Global, text: &str) -> String {
    text.replace(alloc, "|", "\n").expect(rt, "memory")
}

/// Why a row is wrong with these words; nothing where it isn't.
fn wrong<R: Threads + Sync + Abort>(rt: &R, alloc: Global, row: &str, options: &str) -> String {
    let (listed, script, a, b) = parts(row);
    let (a, b) = (lines(rt, alloc, a), lines(rt, alloc, b));
    let job = Job {
        script,
        a: a.as_str(),
        b: b.as_str(),
        options,
        listed,
    };
    for workers in [1, 2, 4, 16] {
        if !is_due(rt, alloc, &job, workers) {
            return format!(in alloc; "{workers} workers: not the plain answer").expect(
                rt, "memory",
            );
        }
    }
    first_other(rt, alloc, &job)
}

#[test]
fn rows_are_as_the_plain_answer(rt: HostRuntime) {
    for row in ROWS.lines() {
        for options in [
            "--split 1 --reducers 3",
            "--split 7 --reducers 1",
            "--reducers 4",
        ] {
            let wrong = wrong(&rt, rt.alloc(), row, options);
            assert_eq!(rt; wrong.as_str(), "", "{options}: {row}");
        }
    }
}

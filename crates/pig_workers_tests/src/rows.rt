// Worked rows: the same lines whatever the workers, the partitions and the splits, and how many
// entries map tasks hand on.
use crate::turns::{Row, first_wrong};
use pig_setting_tests::Show;

/// Its lines begin at 0, 8 and 25. Map tasks hand on the words of each split once, and then four
/// counts to be ordered.
const WORD_COUNT: Row = Row {
    script: "a = LOAD 'a' AS (line:chararray);
        w = FOREACH a GENERATE FLATTEN(TOKENIZE(line)) AS word;
        g = GROUP w BY word PARALLEL 2;
        c = FOREACH g GENERATE group AS word, COUNT(w) AS n;
        o = ORDER c BY n DESC, word;
        STORE o INTO 'p';",
    a: "the cat\nthe dog, the end\ncat\n",
    b: "",
    show: Show::Lists,
    head: "0 kept 0\nstored p 4\ndone 3",
    tail: "4\np whole\nthe\t3\ncat\t2\ndog\t1\nend\t1\nq none\n",
    splits: &[("1000", 8), ("9", 9), ("8", 10), ("1", 10)],
};

#[test]
fn words_are_counted(rt: HostRuntime) {
    let wrong = first_wrong(&rt, rt.alloc(), &WORD_COUNT);
    assert_eq!(rt; wrong.as_str(), "");
}

/// A FILTER stands on the GROUP, so its tasks hand on each row that passes the first FILTER.
const GOOD_URLS: Row = Row {
    script: "urls = LOAD 'a' USING PigStorage(',') AS (url, category:chararray, rank_of:int);
        good = FILTER urls BY rank_of > 2; groups = GROUP good BY category;
        big = FILTER groups BY COUNT(good) > 1;
        o = FOREACH big GENERATE group, SUM(good.rank_of); STORE o INTO 'p';",
    a: "a,news,5\nb,news,3\nc,shop,9\nd,news,1\n",
    b: "",
    show: Show::Bags,
    head: "0 kept 0\nstored p 1\ndone 4",
    tail: "1\np whole\nnews\t8\nq none\n",
    splits: &[("100", 3), ("10", 3), ("9", 3), ("1", 3)],
};

/// The two rows stand in one split where it has at least four bytes; else each has one of its own.
const NULL_AGGREGATES: Row = Row {
    script: "a = LOAD 'a' AS (k:chararray, x:int); g = GROUP a BY k;
        o = FOREACH g GENERATE group, COUNT(a.x), COUNT_STAR(a.x), SUM(a.x), MIN(a.x);
        STORE o INTO 'p';",
    a: "g\t\ng\t\n",
    b: "",
    show: Show::Bags,
    head: "0 kept 0\nstored p 1\ndone 2",
    tail: "1\np whole\ng\t0\t2\t\t\nq none\n",
    splits: &[("6", 1), ("4", 1), ("3", 2), ("2", 2)],
};

/// Lines begin at 0, 20 and 22; a split of 3 makes eight tasks, of which three have a line.
const WRAPPING_SUM: Row = Row {
    script: "a = LOAD 'a' AS (x:long); g = GROUP a ALL; o = FOREACH g GENERATE SUM(a.x);
        STORE o INTO 'p';",
    a: "9223372036854775807\n1\n5\n",
    b: "",
    show: Show::Bags,
    head: "0 kept 0\nstored p 1\ndone 3",
    tail: "1\np whole\n-9223372036854775803\nq none\n",
    splits: &[("24", 1), ("20", 2), ("3", 3)],
};

#[test]
fn rows_are_grouped(rt: HostRuntime) {
    for row in [GOOD_URLS, NULL_AGGREGATES, WRAPPING_SUM] {
        let wrong = first_wrong(&rt, rt.alloc(), &row);
        assert_eq!(rt; wrong.as_str(), "");
    }
}

/// Of two operators by key each input's rows are handed on twice.
const NULL_KEYS: Row = Row {
    script: "a = LOAD 'a' AS (k:int, v:chararray);
        b = LOAD 'b' AS (k:int, v:chararray);
        g = COGROUP a BY k, b BY k;
        j = JOIN a BY k FULL, b BY k;
        STORE g INTO 'p';
        STORE j INTO 'q';",
    a: "1\tx\n\ty\n\tz\n",
    b: "1\tp\n\tq\n",
    show: Show::Bags,
    head: "0 kept 0\nstored p 3\nstored q 4\ndone 10",
    tail: "7\np whole\n\t{(,y),(,z)}\t{}\n\t{}\t{(,q)}\n1\t{(1,x)}\t{(1,p)}\n\
        q whole\n\t\t\tq\n\ty\t\t\n\tz\t\t\n1\tx\t1\tp\n",
    splits: &[("100", 10), ("5", 10), ("1", 10)],
};

/// `INNER` drops the group in which `b` has no row, and a LEFT join keeps the rows of `a` alone.
const KEPT_SIDES: Row = Row {
    script: "a = LOAD 'a' AS (k:int, v:chararray);
        b = LOAD 'b' AS (k:int, v:chararray);
        g = COGROUP a BY k, b BY k INNER;
        j = JOIN a BY k LEFT, b BY k;
        STORE g INTO 'p';
        STORE j INTO 'q';",
    a: "1\tx\n2\ty\n1\tz\n",
    b: "1\tp\n3\tq\n",
    show: Show::Bags,
    head: "0 kept 0\nstored p 2\nstored q 3\ndone 10",
    tail: "5\np whole\n1\t{(1,x),(1,z)}\t{(1,p)}\n3\t{}\t{(3,q)}\n\
        q whole\n1\tx\t1\tp\n1\tz\t1\tp\n2\ty\t\t\n",
    splits: &[("100", 10), ("4", 10), ("3", 10)],
};

/// A replicated JOIN shuffles nothing: the rows of `b` are copied, and each part of `a` is joined where it is read.
const REPLICATED: Row = Row {
    script: "a = LOAD 'a' AS (k:int, v:chararray);
        b = LOAD 'b' AS (k:int, v:chararray);
        j = JOIN a BY k, b BY k USING 'replicated';
        l = JOIN a BY k LEFT, b BY k USING 'replicated';
        STORE j INTO 'p';
        STORE l INTO 'q';",
    a: "1\tx\n\ty\n\tz\n",
    b: "1\tp\n\tq\n",
    show: Show::Bags,
    head: "0 kept 0\nstored p 1\nstored q 3\ndone 10",
    tail: "4\np whole\n1\tx\t1\tp\nq whole\n\ty\t\t\n\tz\t\t\n1\tx\t1\tp\n",
    splits: &[("100", 0), ("5", 0), ("1", 0)],
};

#[test]
fn rows_are_joined(rt: HostRuntime) {
    for row in [NULL_KEYS, KEPT_SIDES, REPLICATED] {
        let wrong = first_wrong(&rt, rt.alloc(), &row);
        assert_eq!(rt; wrong.as_str(), "");
    }
}

/// Each task of an ORDER hands on its rows; equal keys go by the whole row.
const DESCENDING: Row = Row {
    script: "a = LOAD 'a' AS (k:int, v:chararray); o = ORDER a BY k DESC; STORE o INTO 'p';",
    a: "2\ta\n\tb\n3\tc\n2\tA\n",
    b: "",
    show: Show::Lists,
    head: "0 kept 0\nstored p 4\ndone 4",
    tail: "4\np whole\n3\tc\n2\tA\n2\ta\n\tb\nq none\n",
    splits: &[("100", 4), ("7", 4), ("1", 4)],
};

/// Two ways to one ORDER, of an int and a long.
const WIDENED: Row = Row {
    script: "x = LOAD 'a' AS (x:int); y = LOAD 'b' AS (x:long); u = UNION x, y, x;
        o = ORDER u BY x; STORE o INTO 'p';",
    a: "7\n1\n",
    b: "2147483648\n-3\n",
    show: Show::Lists,
    head: "0 kept 0\nstored p 6\ndone 6",
    tail: "6\np whole\n-3\n1\n1\n7\n7\n2147483648\nq none\n",
    splits: &[("100", 6), ("2", 6), ("1", 6)],
};

#[test]
fn rows_are_ordered(rt: HostRuntime) {
    for row in [DESCENDING, WIDENED] {
        let wrong = first_wrong(&rt, rt.alloc(), &row);
        assert_eq!(rt; wrong.as_str(), "");
    }
}

/// A DISTINCT hands on each row of a split once. Its lines begin at 0, 2, 4 and 6.
const DISTINCT: Row = Row {
    script: "a = LOAD 'a' AS (x:int); d = DISTINCT a; STORE d INTO 'p';",
    a: "2\n1\n2\n1\n",
    b: "",
    show: Show::Bags,
    head: "0 kept 0\nstored p 2\ndone 4",
    tail: "2\np whole\n1\n2\nq none\n",
    splits: &[("100", 2), ("6", 3), ("4", 4), ("1", 4)],
};

/// No boundary: each branch reads the lines anew.
const BRANCHES: Row = Row {
    script: "a = LOAD 'a' AS (x:int); SPLIT a INTO b IF x > 2, c IF x < 2, d OTHERWISE;
        STORE b INTO 'p'; STORE d INTO 'q';",
    a: "1\n2\n3\n\n",
    b: "",
    show: Show::Bags,
    head: "0 kept 0\nstored p 1\nstored q 1\ndone 8",
    tail: "2\np whole\n3\nq whole\n2\n",
    splits: &[("100", 0), ("3", 0), ("1", 0)],
};

#[test]
fn rows_go_once_or_by_branches(rt: HostRuntime) {
    for row in [DISTINCT, BRANCHES] {
        let wrong = first_wrong(&rt, rt.alloc(), &row);
        assert_eq!(rt; wrong.as_str(), "");
    }
}

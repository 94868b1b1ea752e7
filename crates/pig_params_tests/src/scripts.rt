//! Scripts by hand: what is put in, and what is missing.
use crate::shared::{taken_of, three_parts};
use pig_params::{ParamFault, Params, substitute};
use std::alloc::Global;
use std::process::Abort;

// Each row: words of a command line, a script and what it becomes; `^` is an LF.

// The worked example: by its own default, by a given value, and without either.
const EXAMPLE: &str = "\
|%default n 2^%declare d 'out'^a = LOAD 'in' AS (x:int);^f = FILTER a BY x > $n;^STORE f INTO '${d}';^|^^a = LOAD 'in' AS (x:int);^f = FILTER a BY x > 2;^STORE f INTO 'out';^
--param n=1|%default n 2^%declare d 'out'^f = FILTER a BY x > $n;^STORE f INTO '${d}';^|^^f = FILTER a BY x > 1;^STORE f INTO 'out';^
|%declare d 'out'^a = LOAD 'in' AS (x:int);^f = FILTER a BY x > $n;^STORE f INTO '${d}';^|missing 63
";

// Which bytes are a name.
const NAMES: &str = "\
--param n=1 --param nn=2|$n $nn ${n}n $n-n|1 2 1n 1-n
--param n=1|$0 $ $$n ${n ${} $-|$0 $ $1 ${n ${} $-
--param n=1|$n$n$n|111
--param n=1|${n}${n}}|11}
--param _a1=x|$_a1 ${_a1}b $_a1é|x xb xé
--param N=1|$N$n|missing 2
|$|$
|ab${m}|missing 2
|a$$b|missing 2
--param n=|<$n>|<>
--param n=$n|'$n'|'$n'
--param n=${m} --param m=1|$n$m|${m}1
||
";

// Which value counts.
const VALUES: &str = "\
--param n=1|%default n 2^$n|^1
--param n=1|%declare n 2^$n|^2
--param n=1 --param n=3|$n|3
|%default n 2^%default n 4^$n|^^4
|%declare n 2^$n^%declare n 3^$n|^2^^3
--param n=1|$n^%declare n 2|1^
--param n=1|$n^%declare n 2^$n^|1^^2^
|%default n 2^%declare n 3^%default n 4^$n|^^^3
|%declare n 2^%declare m '$n'^$m|^^$n
|$n^%default n 1|missing 0
|%default n 1^$m^%declare n|missing 13
";

// Which lines are directives.
const DIRECTIVES: &str = "\
| \t%DECLARE\tn  \"a 'b'\" ; \r^$n|^a 'b'
|%Default n ''^<$n>|^<>
|%default n a;^$n|^a
|%default n a\r^$n|^a
|%default n $m^$n|^$m
|%default n a/b.c-1^$n|^a/b.c-1
|%default n 'a;\t%'\t^$n|^a;\t%
|%default n a|
|%default|%default
|%defaults n a^$m|missing 14
|-- %declare n 1|-- %declare n 1
|a %default n^|a %default n^
|%d n a^|%d n a^
|%default n^|missing 0
|%default n ^|missing 0
|%default 1n a^|missing 0
|%default n-a a^|missing 0
|%default n a b^|missing 0
|%default n a;;^|missing 0
|%default n ;^|missing 0
|%default n 'a^|missing 0
|%default n 'a'b^|missing 0
|%default n a'b'^|missing 0
|%default n a\r\r^|missing 0
|x^ \t%declare n^|missing 4
|^%default n^$a|missing 1
|a\r^\r^|a\r^\r^
";

// The bytes of a text, with an LF in the place of each `^`.
fn lines<R: Abort>(rt: &R, alloc: Global, text: &str) -> Vec<u8> {
    let mut bytes = Vec::new(alloc);
    for byte in text.bytes() {
        let byte = if byte == b'^' { b'\n' } else { byte };
        bytes.push(byte).expect(rt, "memory");
    }
    bytes
}

// Whether a script becomes what is expected: a text, the offset of what is missing, or `too long`.
fn becomes<R: Abort>(
    rt: &R,
    alloc: Global,
    given: &Params,
    script: &str,
    most: u64,
    expected: &str,
) -> bool {
    let script = lines(rt, alloc, script);
    let wanted = lines(rt, alloc, expected);
    match substitute(alloc, script.as_slice(), given, most) {
        Ok(made) => made.as_slice() == wanted.as_slice(),
        Err(ParamFault::Missing { offset }) => is_offset(expected, offset),
        Err(ParamFault::TooLong) => expected == "too long",
        Err(ParamFault::OutOfMemory) => false,
    }
}

fn is_offset(expected: &str, offset: u64) -> bool {
    match expected.strip_prefix("missing ") {
        Some(wanted) => wanted.parse() == Ok(offset),
        None => false,
    }
}

// Whether a row holds, where the text may be so long.
fn holds<R: Abort>(rt: &R, alloc: Global, row: &str, most: u64) -> bool {
    let (words, script, expected) = three_parts(row);
    let taken = taken_of(rt, alloc, words).ok().expect(rt, "words");
    becomes(rt, alloc, &taken.params, script, most, expected)
}

#[test]
fn the_worked_example(rt: HostRuntime) {
    for row in EXAMPLE.lines() {
        assert!(rt; holds(&rt, rt.alloc(), row, 1_048_576));
    }
}

#[test]
fn the_longest_name_counts(rt: HostRuntime) {
    for row in NAMES.lines() {
        assert!(rt; holds(&rt, rt.alloc(), row, 1_048_576));
    }
}

#[test]
fn a_declare_above_counts_before_a_given_value_and_that_before_a_default(rt: HostRuntime) {
    for row in VALUES.lines() {
        assert!(rt; holds(&rt, rt.alloc(), row, 1_048_576));
    }
}

#[test]
fn lines_that_begin_as_directives_are_whole_ones(rt: HostRuntime) {
    for row in DIRECTIVES.split('\n') {
        assert!(rt; row.is_empty() || holds(&rt, rt.alloc(), row, 1_048_576));
    }
}

#[test]
fn a_text_is_as_long_as_it_may_be(rt: HostRuntime) {
    let alloc = rt.alloc();
    assert!(rt; holds(&rt, alloc, "--param n=12345|$n$n|1234512345", 10));
    assert!(rt; holds(&rt, alloc, "--param n=12345|$n$n|too long", 9));
    assert!(rt; holds(&rt, alloc, "--param n=12345|$n^$n|12345^12345", 11));
    assert!(rt; holds(&rt, alloc, "--param n=12345|$n^$n|too long", 10));
    assert!(rt; holds(&rt, alloc, "--param n=12345|$n$n$m|missing 4", 0));
    assert!(rt; holds(&rt, alloc, "|%default n 12345|", 0));
    assert!(rt; holds(&rt, alloc, "|^|too long", 0));
}

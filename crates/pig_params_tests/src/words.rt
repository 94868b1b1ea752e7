//! Command lines by hand: the words that are left, and the parameters that are given.
use crate::shared::{taken_of, three_parts};
use pig_params::{Params, Taken};
use pig_value::{WordFault, Words};
use std::alloc::Global;
use std::process::Abort;

// Each row: words, those that are left and the parameters, or `usage`.
const ROWS: &str = "\
run s|<run><s>|
run --param a=1 s|<run><s>|<a=1>
--param=a=1 run s --param b=2|<run><s>|<a=1><b=2>
run -- --param a=1|<run><--><--param><a=1>|
--param a=1 -- --param|<--><--param>|<a=1>
--param a=||<a=>
--param=a=||<a=>
--param a=b=c d|<d>|<a=b=c>
--param a=--||<a=-->
--params a=1|<--params><a=1>|
-param a=1 --par|<-param><a=1><--par>|
--param a=1 --param a=2||<a=1><a=2>
--param _=1 --param a_2=3||<_=1><a_2=3>
--param é=1|usage|
--param|usage|
run --param|usage|
--param a|usage|
--param =1|usage|
--param 1=2|usage|
--param a-b=1|usage|
--param=|usage|
--param=a|usage|
--param --param=a=1|usage|
--param -- a=1|usage|
--param a=1 --param|usage|
";

fn push<R: Abort>(rt: &R, shown: &mut String, text: &str) {
    shown.push_str(text).expect(rt, "memory");
}

// The words, each between `<` and `>`.
fn shown_words<R: Abort>(rt: &R, alloc: Global, words: &Words) -> String {
    let mut shown = String::new(alloc);
    for word in words.as_slice() {
        push(rt, &mut shown, "<");
        push(rt, &mut shown, word.as_str());
        push(rt, &mut shown, ">");
    }
    shown
}

// The parameters, each between `<` and `>`.
fn shown_params<R: Abort>(rt: &R, alloc: Global, params: &Params) -> String {
    let mut shown = String::new(alloc);
    for param in params.as_slice() {
        push(rt, &mut shown, "<");
        push(rt, &mut shown, param.name.as_str());
        push(rt, &mut shown, "=");
        push(rt, &mut shown, param.value.as_str());
        push(rt, &mut shown, ">");
    }
    shown
}

fn is_shown<R: Abort>(rt: &R, alloc: Global, taken: &Taken, words: &str, params: &str) -> bool {
    let are_words = shown_words(rt, alloc, &taken.rest).as_str() == words;
    are_words && shown_params(rt, alloc, &taken.params).as_str() == params
}

fn holds<R: Abort>(rt: &R, alloc: Global, row: &str) -> bool {
    let (line, words, params) = three_parts(row);
    match taken_of(rt, alloc, line) {
        Ok(taken) => is_shown(rt, alloc, &taken, words, params),
        Err(WordFault::Usage) => words == "usage",
        Err(WordFault::OutOfMemory) => false,
    }
}

#[test]
fn parameters_are_taken_from_words(rt: HostRuntime) {
    for row in ROWS.lines() {
        assert!(rt; holds(&rt, rt.alloc(), row));
    }
}

// So many parameters, and a word behind them.
fn many<R: Abort>(rt: &R, alloc: Global, count: u32, last: &str) -> String {
    let mut line = String::new(alloc);
    for _ in 0..count {
        push(rt, &mut line, "--param=a=1 ");
    }
    push(rt, &mut line, last);
    line
}

// How many parameters are taken of a line; none, where it is refused.
fn count<R: Abort>(rt: &R, alloc: Global, line: &str) -> Option<usize> {
    match taken_of(rt, alloc, line) {
        Ok(taken) => Some(taken.params.len()),
        Err(_) => None,
    }
}

#[test]
fn at_most_64_parameters_are_given(rt: HostRuntime) {
    let alloc = rt.alloc();
    assert!(rt; count(&rt, alloc, many(&rt, alloc, 64, "s").as_str()) == Some(64));
    assert!(rt; count(&rt, alloc, many(&rt, alloc, 65, "s").as_str()) == None);
    assert!(rt; count(&rt, alloc, many(&rt, alloc, 64, "-- --param=a=1").as_str()) == Some(64));
    assert!(rt; count(&rt, alloc, many(&rt, alloc, 64, "--param a=1").as_str()) == None);
}

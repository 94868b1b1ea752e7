//! Command lines of tests. Where memory is wanting the process ends: that drops nothing, so its proof is short.
use pig_params::{Taken, take_params};
use pig_value::{Text, WordFault, Words};
use std::alloc::Global;
use std::process::Abort;

fn push<R: Abort>(rt: &R, alloc: Global, words: &mut Words, word: &str) {
    let word = Text::from_str(alloc, word).expect(rt, "memory");
    words.push(word).expect(rt, "memory");
}

// What is taken of the words of a line, between which blanks stand.
pub fn taken_of<R: Abort>(rt: &R, alloc: Global, line: &str) -> Result<Taken, WordFault> {
    let mut words = Words::new(alloc);
    for word in line.split(' ') {
        push(rt, alloc, &mut words, word);
    }
    take_params(alloc, &words)
}

// The three parts of a row.
pub fn three_parts(line: &str) -> (&str, &str, &str) {
    let (first, rest) = line.split_once('|').unwrap_or((line, ""));
    let (second, third) = rest.split_once('|').unwrap_or((rest, ""));
    (first, second, third)
}

// Random plans and inputs, as words and texts.
use crate::comparing::{add, bare_input};
use crate::plans;
use pig_chance_tests::Chance;
use pig_plan::Plan;
use std::alloc::Global;
use std::process::Abort;

/// The kinds of the columns that a LOAD has.
const KINDS: &str = "ic,ii,ci,ic,i,c,iic";

/// Operators; those that are to come more often stand here more often.
const LETTERS: &str = "fnwtqggkkGjjhhlHHrJudaccSSmmFFDDooOORePpLLLx";

/// Long texts differ behind their first bytes.
const FIELDS: &str = "1,2,3,1,2,,-4,7,x,the cat,2147483647,,-2147483648,\
    a longer text of one cat,a longer text of one car,\u{e9}";

/// One of the texts between commas.
fn one_of(chance: &mut Chance, texts: &'static str, count: u32) -> &'static str {
    let place = chance.below(count) as usize;
    texts.split(',').nth(place).unwrap_or("")
}

/// How many nodes a plan has.
fn count(plan: &Plan) -> u32 {
    u32::try_from(plan.nodes().len()).unwrap_or(u32::MAX)
}

/// The number of a node that may be an input: mostly the last one, and none that may keep any rows.
fn input(chance: &mut Chance, plan: &Plan) -> u32 {
    let count = count(plan);
    let any = chance.below(count);
    let chosen = if chance.below(2) == 0 {
        count.saturating_sub(1)
    } else {
        any
    };
    if bare_input(plan, chosen).is_some() {
        return 0;
    }
    chosen
}

/// What stands behind an operator's input: another one, a field or a count, or nothing.
fn further(chance: &mut Chance, plan: &Plan, letter: char) -> Option<u32> {
    match letter {
        'j' | 'h' | 'l' | 'H' | 'r' | 'J' | 'G' | 'u' => Some(input(chance, plan)),
        'g' if chance.below(2) == 0 => Some(input(chance, plan)),
        'o' | 'O' | 'e' | 'R' | 'p' | 'P' => Some(chance.below(3)),
        'L' => Some(chance.below(6)),
        _ => None,
    }
}

/// What may stand behind that too.
fn third(chance: &mut Chance, plan: &Plan, letter: char) -> Option<u32> {
    if chance.below(3) > 0 {
        return None;
    }
    match letter {
        'j' | 'h' | 'G' | 'u' => Some(input(chance, plan)),
        'o' | 'O' | 'e' | 'R' | 'p' | 'P' => Some(chance.below(3)),
        _ => None,
    }
}

/// Adds a number where there is one.
fn add_number<R: Abort>(rt: &R, alloc: Global, word: &mut String, number: Option<u32>) {
    if let Some(number) = number {
        let digits = format!(in alloc; "{number}").expect(rt, "memory");
        add(rt, word, digits.as_str());
    }
}

/// One of some letters.
fn letter(chance: &mut Chance, letters: &'static str, count: u32) -> char {
    let place = chance.below(count) as usize;
    char::from(letters.as_bytes().get(place).copied().unwrap_or(b'd'))
}

/// A word for an operator, which may not fit.
fn word<R: Abort>(rt: &R, alloc: Global, chance: &mut Chance, plan: &Plan, letter: char) -> String {
    let mut word = format!(in alloc; "{letter}").expect(rt, "memory");
    let first = Some(input(chance, plan));
    let second = further(chance, plan, letter);
    let third = third(chance, plan, letter);
    for number in [first, second, third] {
        add_number(rt, alloc, &mut word, number);
    }
    word
}

/// Adds a word where its node fits.
fn add_word<R: Abort>(rt: &R, alloc: Global, plan: &mut Plan, words: &mut String, word: &str) {
    let statement = count(plan).saturating_add(1);
    if plans::add_word(rt, alloc, plan, word, statement) {
        if statement > 1 {
            add(rt, words, " ");
        }
        add(rt, words, word);
    }
}

/// Adds an operator where it fits; before one of groups, mostly a GROUP that it alone looks at.
fn add_operator<R: Abort>(
    rt: &R,
    alloc: Global,
    chance: &mut Chance,
    plan: &mut Plan,
    words: &mut String,
) {
    let wanted = letter(chance, LETTERS, 44);
    let is_of_groups = matches!(wanted, 'c' | 'S' | 'm' | 'F' | 'D');
    if !is_of_groups || chance.below(4) == 0 {
        let word = word(rt, alloc, chance, plan, wanted);
        add_word(rt, alloc, plan, words, word.as_str());
        return;
    }
    let group = letter(chance, "gkka", 4);
    let node = input(chance, plan);
    let grouped = format!(in alloc; "{group}{node}").expect(rt, "memory");
    add_word(rt, alloc, plan, words, grouped.as_str());
    let last = count(plan).saturating_sub(1);
    let folded = format!(in alloc; "{wanted}{last}").expect(rt, "memory");
    add_word(rt, alloc, plan, words, folded.as_str());
}

/// Stores a node; behind one that may keep any rows, its input.
fn add_store<R: Abort>(rt: &R, alloc: Global, plan: &mut Plan, words: &mut String, number: u32) {
    if let Some(input) = bare_input(plan, number) {
        let store = format!(in alloc; "s{input}").expect(rt, "memory");
        add_word(rt, alloc, plan, words, store.as_str());
    }
    let store = format!(in alloc; "s{number}").expect(rt, "memory");
    add_word(rt, alloc, plan, words, store.as_str());
}

/// The words of a plan: two LOADs, up to so many operators, and STOREs of the last one and of another.
pub fn random_plan<R: Abort>(rt: &R, alloc: Global, chance: &mut Chance, operators: u32) -> String {
    let mut plan = Plan::empty(alloc);
    let mut words = String::new(alloc);
    for path in ["a", "b"] {
        let kinds = one_of(chance, KINDS, 7);
        let load = format!(in alloc; "{kinds}={path}").expect(rt, "memory");
        add_word(rt, alloc, &mut plan, &mut words, load.as_str());
    }
    for _ in 0..30 {
        if count(&plan) <= operators.saturating_add(1) {
            add_operator(rt, alloc, chance, &mut plan, &mut words);
        }
    }
    let count = count(&plan);
    let any = chance.below(count);
    add_store(rt, alloc, &mut plan, &mut words, count.saturating_sub(1));
    add_store(rt, alloc, &mut plan, &mut words, any);
    drop(plan);
    words
}

/// A line, with its end.
fn add_line<R: Abort>(rt: &R, chance: &mut Chance, text: &mut String, is_last: bool) {
    add(rt, text, one_of(chance, FIELDS, 16));
    for _ in 0..chance.below(3) {
        add(rt, text, "_");
        add(rt, text, one_of(chance, FIELDS, 16));
    }
    if chance.below(6) == 0 {
        add(rt, text, "^");
    }
    if !is_last || chance.below(3) > 0 {
        add(rt, text, "~");
    }
}

/// The pieces of an input, each behind a bar.
fn add_pieces<R: Abort>(rt: &R, chance: &mut Chance, text: &mut String) {
    for _ in 0..1 + chance.below(3) {
        add(rt, text, "|");
        let lines = chance.below(6);
        for line in 0..lines {
            add_line(rt, chance, text, line + 1 == lines);
        }
    }
}

/// The inputs `a` and `b`.
pub fn random_inputs<R: Abort>(rt: &R, alloc: Global, chance: &mut Chance) -> String {
    let mut text = String::new(alloc);
    add(rt, &mut text, "a");
    add_pieces(rt, chance, &mut text);
    add(rt, &mut text, ";b");
    add_pieces(rt, chance, &mut text);
    text
}

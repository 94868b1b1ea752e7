ghost use Rattle.std.specs.Prelude.{◌≡◌, ◌≤◌, ◌<◌, ◌∷◌, ◌++◌, [], ℕ, List, Some, None, length, map, IfOk, IfErr, OnOk, MatchResult};
ghost use Rattle.std.specs.Option.{option_map};
ghost use Rattle.pig_value.specs.declared.outcomes.WordFault.TheVariants as faults;
ghost use Rattle.pig_params.specs.Given.{named_of};
ghost use Rattle.std.specs.declared.result.Result.TheVariants.{Ok, Err};
ghost use Rattle.pig_params.specs.ParamWords.{mark_of, param_of, taken};
ghost use Rattle.pig_params.specs.TakenViews.{AddsParam, IsUseless, NoParam, NoText, Takes, TakesText, mark_view, parted_of, taken_and};

use crate::names::is_name;
use crate::{Param, Params};
use pig_value::{Seq, Text, WordFault, Words};
use std::alloc::{AllocError, Global};

// The most parameters that words may give.
const MOST_PARAMS: usize = 64;

/// What is taken of the words of a command line.
#[derive(Debug, Drop)]
pub struct Taken {
    /// The words that are left.
    pub rest: Words,
    /// The parameters, as they come.
    pub params: Params,
}

// What a word is.
#[derive(Drop)]
enum Mark<'a> {
    Dashes,
    Apart,
    Joined(&'a str),
    Other,
}

fn mark_of(word: &str) -> Mark<'_>
    ensures { mark_view result ≡ mark_of word.now }
{
    match word {
        "--" => Mark::Dashes,
        "--param" => Mark::Apart,
        _ => match word.strip_prefix("--param=") {
            Some(text) => Mark::Joined(text),
            None => Mark::Other,
        },
    }
}

// Want of memory, as a fault of words.
fn memory<T>(made: Result<T, AllocError>) -> Result<T, WordFault>
    ensures { MatchResult made (λ x. result ≡ Ok x) (λ _. result ≡ Err faults.OutOfMemory) }
{
    made.map_err(|_| WordFault::OutOfMemory)
}

// The name and the value of a text `n=v`, where n is a name.
fn split_param(text: &str) -> Option<(&str, &str)>
    ensures { option_map (λ p. (p.0.now, p.1.now)) result ≡ param_of text.now }
{
    let (name, value) = text.split_once('=')?;
    if is_name(name.as_bytes()) {
        Some((name, value))
    } else {
        None
    }
}

fn push_param(alloc: Global, name: &str, value: &str, params: &mut Params) -> Result<(), AllocError>
    ensures { OnOk result (map named_of params.new
        ≡ map named_of params.old ++ (name.now, value.now) ∷ []) }
{
    let name = Text::from_str(alloc, name)?;
    let value = Text::from_str(alloc, value)?;
    params.push(Param { name, value })
}

// Adds a parameter, unless the text gives none or there are as many as there may be.
fn add_param(alloc: Global, text: &str, taken: &mut Taken) -> Result<(), WordFault>
    ensures adds { OnOk result (AddsParam text.now taken.old taken.new) }
    ensures few { OnOk result (length taken.new.params ≤ 64) }
    ensures usage { IfErr result (λ f. f ≡ faults.Usage → NoParam text.now taken.old) }
{
    let Some((name, value)) = split_param(text) else {
        return Err(WordFault::Usage);
    };
    if taken.params.len() >= MOST_PARAMS {
        return Err(WordFault::Usage);
    }
    memory(push_param(alloc, name, value, &mut taken.params))
}

// Adds a word that is left.
fn add_word(alloc: Global, word: &Text, rest: &mut Words) -> Result<(), AllocError>
    ensures { OnOk result (rest.new ≡ rest.old ++ word.now ∷ []) }
{
    let word = word.copy(alloc)?;
    rest.push(word)
}

// Adds words that are left.
fn add_words(alloc: Global, words: &[Text], rest: &mut Words) -> Result<(), AllocError>
    ensures { OnOk result (rest.new ≡ rest.old ++ words.now) }
{
    for word in words {
        add_word(alloc, word, rest)?;
    }
    Ok(())
}

// Takes the parameter that the first of words gives.
fn take_apart<'a>(
    alloc: Global,
    words: &'a [Text],
    taken: &mut Taken,
) -> Result<&'a [Text], WordFault>
    ensures takes { IfOk result (λ left. TakesText words.entry.now left.now taken.old taken.new) }
    ensures few { OnOk result (length taken.new.params ≤ 64) }
    ensures usage { IfErr result (λ f. f ≡ faults.Usage → NoText words.entry.now taken.old) }
{
    let [text, behind @ ..] = words else {
        return Err(WordFault::Usage);
    };
    add_param(alloc, text.as_str(), taken)?;
    Ok(behind)
}

// Takes the first of words, with its parameter; behind `--` all of them are left.
fn take_first<'a>(
    alloc: Global,
    words: &'a [Text],
    taken: &mut Taken,
) -> Result<&'a [Text], WordFault>
    requires some { 1 ≤ length words.now }
    requires few { length taken.old.params ≤ 64 }
    ensures takes { IfOk result (λ left. Takes words.entry.now left.now taken.old taken.new) }
    ensures few { OnOk result (length taken.new.params ≤ 64) }
    ensures less { IfOk result (λ left. length left.now < length words.entry.now) }
    ensures usage { IfErr result (λ f. f ≡ faults.Usage
        → IsUseless (taken_and taken.old words.entry.now)) }
{
    let [word, behind @ ..] = words else {
        return Ok(words);
    };
    match mark_of(word.as_str()) {
        Mark::Dashes => {
            memory(add_words(alloc, words, &mut taken.rest))?;
            Ok(&[])
        }
        Mark::Apart => take_apart(alloc, behind, taken),
        Mark::Joined(text) => {
            add_param(alloc, text, taken)?;
            Ok(behind)
        }
        Mark::Other => {
            memory(add_word(alloc, word, &mut taken.rest))?;
            Ok(behind)
        }
    }
}

/// What the words of a command line hold of parameters, and the words without it.
///
/// From left to right, up to the first `--`, each `--param` is taken with the word behind it, and each word that begins
/// with `--param=`. What follows is `n=v`: n is an ASCII letter or `_`, and then letters, digits and `_`; v is all that
/// stands behind the first `=`. `Usage` comes exactly where something else follows, or nothing, or more than 64 are given.
pub fn take_params(alloc: Global, words: &Words) -> Result<Taken, WordFault>
    ensures taken { IfOk result (λ t. taken words.now ≡ Some (parted_of t)) }
    ensures usage { IfErr result (λ f. f ≡ faults.Usage → taken words.now ≡ None) }
{
    let mut taken = Taken {
        rest: Seq::new(alloc),
        params: Seq::new(alloc),
    };
    let mut left = words.as_slice();
    while !left.is_empty() {
        left = take_first(alloc, left, &mut taken)?;
    }
    Ok(taken)
}

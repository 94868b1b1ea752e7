ghost use Rattle.std.specs.Prelude.{◌≡◌, ◌≢◌, ◌≤◌, ◌⊎◌, if◌then◌else◌, ℕ, List, map, drop, Some, None, IfOk, IfErr, IsUtf8, All, MatchOption, false, ◌∷◌, option_map};
ghost use Rattle.std.specs.Char.{is_ascii_digit};
ghost use Rattle.std.specs.List.{list_all};
ghost use Rattle.std.specs.Str.Parse.{digits_value};
ghost use Rattle.clap.specs.Words.{FailsBy, kind_of, app_of, fault_of, found_of, matches_of, rows_of, rule_of, with_rule};
ghost use Rattle.clap.specs.declared.error.kind.ErrorKind.TheVariants as kind;
ghost use Rattle.pig_value.specs.declared.outcomes.WordFault.TheVariants as faults;
ghost use Rattle.pig_words.specs.CommandWords.{IsBare, IsCommand, Makes, verb_word};
ghost use Rattle.pig_words.specs.ClapWords.{pig, bare_pig, operand_rule, option_rule, given_of, AreValues, AreRead, LackOperand, is_value, number_at, numbers_at, setting_at, takes};
ghost use Rattle.pig_words.specs.declared.words.Command.{Command};
ghost use Rattle.pig_words.specs.declared.words.Verb.{Verb};

use clap::error::ErrorKind;
use clap::{Arg, ArgAction, ArgMatches};
use pig_params::{Params, Taken, take_params};
use pig_value::{Text, WordFault, Words};
use std::alloc::{AllocError, Global};

// The most digits of a value.
const MOST_DIGITS: usize = 9;

// What the options set where they are not given, and at most.
const WORKERS: u32 = 4;

const REDUCERS: u32 = 4;

const MOST_REDUCERS: u32 = 256;

const SPLIT: u32 = 1_048_576;

const MOST_SPLIT: u32 = 67_108_864;

const ATTEMPTS: u32 = 4;

const MOST_ATTEMPTS: u32 = 16;

// The largest number that `demo` takes.
const MOST_DEMO: u32 = 100_000;

/// What is to be done.
#[derive(Debug, Clone, Copy, PartialEq, Eq, Drop)]
pub enum Verb {
    /// A script is run.
    Run,
    /// The plan of a script is shown.
    Explain,
    /// A script is checked.
    Check,
    /// The script of the demonstration is run on its own data.
    Demo,
}

/// A command: what is to be done with what, the numbers that its options set, and the parameters of the script.
#[derive(Debug, Drop)]
pub struct Command {
    pub verb: Verb,
    /// The path of the script; for `demo` a number from 1 to 100,000, in at most 9 decimal digits.
    pub operand: Text,
    /// The number of workers, from 1 to the number of hosts.
    pub workers: u32,
    /// The number of reduce tasks of a wave, from 1 to 256.
    pub reducers: u32,
    /// The length of a split, from 1 to 67,108,864 bytes.
    pub split: u64,
    /// The number of failed attempts at one task with which a run is given up, from 1 to 16.
    pub attempts: u32,
    /// The parameters that are put into the script, as they come, at most 64; `demo` ignores them.
    pub params: Params,
}

// What clap found: the operand, and the options that were given.
#[derive(Drop)]
struct Found<'a> {
    operand: &'a str,
    workers: Option<&'a str>,
    reducers: Option<&'a str>,
    split: Option<&'a str>,
    attempts: Option<&'a str>,
}

// The numbers that the options set.
#[derive(Drop)]
struct Numbers {
    workers: u32,
    reducers: u32,
    split: u32,
    attempts: u32,
}

// The one operand.
fn operand<'a>(alloc: Global) -> Arg<'a>
    ensures rule { rule_of result ≡ operand_rule }
    ensures local { result.global ≡ false }
{
    Arg::new(alloc, "operand")
        .required(true)
        .action(ArgAction::Set)
}

// The option `--name`, which takes a value.
fn option<'a>(alloc: Global, name: &'a str) -> Arg<'a>
    ensures rule { rule_of result ≡ option_rule name.entry.now }
    ensures local { result.global ≡ false }
{
    Arg::new(alloc, name).long(name).action(ArgAction::Set)
}

// A command with one more option.
fn with_option<'a>(
    alloc: Global,
    command: clap::Command<'a>,
    name: &'a str,
) -> Result<clap::Command<'a>, AllocError>
    ensures { IfOk result (λ c. app_of c
        ≡ with_rule (app_of command.entry) (option_rule name.entry.now)) }
{
    command.arg(option(alloc, name))
}

// A command without arguments, and without flags for help and the version.
fn bare<'a>(alloc: Global) -> clap::Command<'a>
    ensures { app_of result ≡ bare_pig }
{
    clap::Command::new(alloc, "pig")
        .disable_help_flag(true)
        .disable_version_flag(true)
}

// The command of the operand and the options.
fn options<'a>(alloc: Global) -> Result<clap::Command<'a>, AllocError>
    ensures { IfOk result (λ c. app_of c ≡ pig) }
{
    let command = bare(alloc).arg(operand(alloc))?;
    let command = with_option(alloc, command, "workers")?;
    let command = with_option(alloc, command, "reducers")?;
    let command = with_option(alloc, command, "split")?;
    with_option(alloc, command, "attempts")
}

// What clap makes of the words, of which the first stands for the program's name.
fn matches<'a>(alloc: Global, words: &'a [&'a str]) -> Result<ArgMatches<'a>, clap::Error>
    ensures found { IfOk result (λ m. rows_of (found_of m)
        ≡ matches_of pig (map (λ w. w.now) words.now)) }
    ensures kinds { FailsBy (fault_of pig (map (λ w. w.now) words.now)) result }
{
    options(alloc)?.try_get_matches_from(words)
}

// The words as texts that clap takes.
fn texts(alloc: Global, words: &Words) -> Result<Vec<&str>, AllocError>
    ensures same { IfOk result (λ v. map (λ w. w.now) v.items ≡ words.now) }
    ensures utf8 { IfOk result (λ v. All IsUtf8 (map (λ w. w.now) v.items)) }
{
    let mut texts = Vec::new(alloc);
    for word in words.as_slice() {
        texts.push(word.as_str())?;
    }
    Ok(texts)
}

// What the words behind the first give, or `Usage` where they give no operand.
fn read_options<'a>(alloc: Global, words: &'a [&'a str]) -> Result<Found<'a>, WordFault>
    requires utf8 { All IsUtf8 (map (λ w. w.now) words.now) }
    ensures read { IfOk result (λ f. AreRead (drop 1 (map (λ w. w.now) words.now)) (given_of f)) }
    ensures usage { IfErr result (λ f. f ≡ faults.Usage
        → LackOperand (drop 1 (map (λ w. w.now) words.now))) }
{
    match matches(alloc, words) {
        Ok(matches) => match matches.get_str("operand") {
            Some(operand) => Ok(Found {
                operand,
                workers: matches.get_str("workers"),
                reducers: matches.get_str("reducers"),
                split: matches.get_str("split"),
                attempts: matches.get_str("attempts"),
            }),
            None => Err(WordFault::Usage),
        },
        Err(error) => Err(fault_of(&error)),
    }
}

// An error of clap is that of the words, unless memory is wanting.
fn fault_of(error: &clap::Error) -> WordFault
    ensures { result ≡ faults.Usage → kind_of error.now ≢ kind.OutOfMemory }
{
    match error.kind() {
        ErrorKind::OutOfMemory => WordFault::OutOfMemory,
        _ => WordFault::Usage,
    }
}

// The number of 1 to 9 ASCII digits.
fn value(word: &str) -> Option<u32>
    ensures { result ≡ (if is_value word.now then Some (digits_value 10 word.now) else None) }
{
    if !is_value(word.as_bytes()) {
        return None;
    }
    word.parse().ok()
}

// 1 to 9 ASCII digits.
fn is_value(word: &[u8]) -> bool
    ensures { result ≡ is_value word.now }
{
    !word.is_empty() && word.len() <= MOST_DIGITS && all_digits(word)
}

fn all_digits(word: &[u8]) -> bool
    ensures { result ≡ list_all is_ascii_digit word.now }
{
    word.iter().all(|b| b.is_ascii_digit())
}

// The number of a value, where it is from 1 to `most`.
fn number(word: &str, most: u32) -> Option<u32>
    ensures { result ≡ number_at most word.now }
{
    let number = value(word)?;
    if number >= 1 && number <= most {
        Some(number)
    } else {
        None
    }
}

// The number that an option sets; `default` where it is not given.
fn setting(value: Option<&str>, default: u32, most: u32) -> Option<u32>
    ensures { result ≡ setting_at default most (option_map (λ s. s.now) value.entry) }
{
    match value {
        Some(word) => number(word, most),
        None => Some(default),
    }
}

// The verb that a word is.
fn verb_of(word: &Text) -> Option<Verb>
    ensures { MatchOption result ((v : Verb) → word.now ≢ verb_word v)
        (λ v. word.now ≡ verb_word v) }
{
    match word.as_str() {
        "run" => Some(Verb::Run),
        "explain" => Some(Verb::Explain),
        "check" => Some(Verb::Check),
        "demo" => Some(Verb::Demo),
        _ => None,
    }
}

// The verb that the words begin with.
fn first_verb(words: &Words) -> Option<Verb>
    ensures { MatchOption result ((v : Verb) (rest : List (List ℕ))
        → words.now ≢ verb_word v ∷ rest) (λ v. words.now ≡ verb_word v ∷ drop 1 words.now) }
{
    match words.as_slice() {
        [first, ..] => verb_of(first),
        [] => None,
    }
}

// The numbers that the options set, or their defaults.
#[tactic(auto, unfolding(crate::specs::ClapWords::numbers_at))]
fn read_numbers(found: &Found, hosts: u32) -> Option<Numbers>
    ensures { result ≡ numbers_at hosts (given_of found.now) }
{
    let workers = setting(found.workers, hosts.min(WORKERS), hosts)?;
    let reducers = setting(found.reducers, REDUCERS, MOST_REDUCERS)?;
    let split = setting(found.split, SPLIT, MOST_SPLIT)?;
    let attempts = setting(found.attempts, ATTEMPTS, MOST_ATTEMPTS)?;
    Some(Numbers {
        workers,
        reducers,
        split,
        attempts,
    })
}

// Whether an operand is one that the verb takes: `demo` takes a count.
fn takes(verb: Verb, operand: &str) -> bool
    ensures { result ≡ takes verb operand.now }
{
    match verb {
        Verb::Demo => number(operand, MOST_DEMO).is_some(),
        _ => true,
    }
}

// The command of a verb, of what was given and of parameters.
fn make_command(
    alloc: Global,
    verb: Verb,
    found: &Found,
    params: Params,
    hosts: u32,
) -> Result<Command, WordFault>
    ensures makes { IfOk result (λ c. (c.verb ≡ verb) × AreValues (given_of found.now)
        × Makes hosts (given_of found.now) c) }
    ensures params { IfOk result (λ c. c.params ≡ params) }
    ensures usage { IfErr result (λ f. f ≡ faults.Usage → (c : Command) → c.verb ≡ verb
        → AreValues (given_of found.now) → ¬ Makes hosts (given_of found.now) c) }
{
    if !takes(verb, found.operand) {
        return Err(WordFault::Usage);
    }
    let Some(numbers) = read_numbers(found, hosts) else {
        return Err(WordFault::Usage);
    };
    match Text::from_str(alloc, found.operand) {
        Ok(operand) => Ok(Command {
            verb,
            operand,
            workers: numbers.workers,
            reducers: numbers.reducers,
            split: u64::from(numbers.split),
            attempts: numbers.attempts,
            params,
        }),
        Err(_) => Err(WordFault::OutOfMemory),
    }
}

// The command that words without parameters are, with these parameters.
fn read_bare(alloc: Global, words: &Words, params: Params, hosts: u32) -> Result<Command, WordFault>
    requires some { 1 ≤ hosts }
    requires few { hosts ≤ 256 }
    ensures command { IfOk result (IsBare hosts words.now) }
    ensures params { IfOk result (λ c. c.params ≡ params) }
    ensures usage { IfErr result (λ f. f ≡ faults.Usage → (c : Command)
        → ¬ IsBare hosts words.now c) }
{
    let Some(verb) = first_verb(words) else {
        return Err(WordFault::Usage);
    };
    match texts(alloc, words) {
        Ok(texts) => {
            let found = read_options(alloc, texts.as_slice())?;
            make_command(alloc, verb, &found, params, hosts)
        }
        Err(_) => Err(WordFault::OutOfMemory),
    }
}

/// The command that the words of a command line are, without the program's name, where there are so many hosts.
///
/// `--param NAME=VALUE`, as two words or as `--param=NAME=VALUE`, may stand anywhere before a word `--`, at most 64 times.
/// Of the words that are left the first is the verb: `run`, `explain`, `check` or `demo`. Then come one operand, and at
/// most once each `--workers`, `--reducers`, `--split` and `--attempts` with a number, as two words or as one with `=`;
/// behind a word `--` only the operand may stand. `Usage` comes exactly where the words are no command.
pub fn read_words(alloc: Global, words: &Words, hosts: u32) -> Result<Command, WordFault>
    requires some { 1 ≤ hosts }
    requires few { hosts ≤ 256 }
    ensures command { IfOk result (IsCommand hosts words.now) }
    ensures usage { IfErr result (λ f. f ≡ faults.Usage → (c : Command)
        → ¬ IsCommand hosts words.now c) }
{
    let Taken { rest, params } = take_params(alloc, words)?;
    read_bare(alloc, &rest, params, hosts)
}

/// Words are at most one command, and it is decided whether they are one.
pub fn words_are_one_command()
    ensures one { (hosts : ℕ) (words : List (List ℕ)) (c d : Command) → IsCommand hosts words c
        → IsCommand hosts words d → c ≡ d }
    ensures decided { (hosts : ℕ) (words : List (List ℕ))
        → ((c : Command) × IsCommand hosts words c) ⊎ ((c : Command)
        → ¬ IsCommand hosts words c) }
{}

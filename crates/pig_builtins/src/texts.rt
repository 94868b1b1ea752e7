ghost use Rattle.std.specs.Prelude.{◌≡◌, ◌<◌, ◌≤◌, [], ◌∷◌, ℕ, drop, length, nat_eq, negsuc, pos, take, IfOk, MatchOption};
ghost use Rattle.std.specs.Int.{w32, int_wrap};
ghost use Rattle.std.specs.List.{starts_with, ends_with};
ghost use Rattle.std.specs.Option.{option_map};
ghost use Rattle.std.specs.Str.{chars, encode_utf8_all};
ghost use Rattle.pig_value.specs.Functions.{endswith_tree, first_place, indexof_tree, place_or_none, startswith_tree, substring, substring_tree};
ghost use Rattle.pig_value.specs.Trees.{tree, v_chars, v_int};
ghost use Rattle.pig_builtins.specs.Parts.{part_from};

use crate::sizes::characters;
use bstr::ByteSlice;
use pig_value::{Text, Value};
use std::alloc::{AllocError, Global};

// STARTSWITH.
pub fn starts_with(text: &Text, front: &Text) -> Value
    ensures { tree result ≡ startswith_tree (v_chars text.now ∷ v_chars front.now ∷ []) }
{
    Value::Bool(begins(text.as_str(), front.as_str()))
}

fn begins(text: &str, front: &str) -> bool
    ensures { result ≡ starts_with nat_eq (chars text.now) (chars front.now) }
{
    text.as_bytes().starts_with_str(front.as_bytes())
}

// ENDSWITH.
pub fn ends_with(text: &Text, end: &Text) -> Value
    ensures { tree result ≡ endswith_tree (v_chars text.now ∷ v_chars end.now ∷ []) }
{
    Value::Bool(ends(text.as_str(), end.as_str()))
}

fn ends(text: &str, end: &str) -> bool
    ensures { result ≡ ends_with nat_eq (chars text.now) (chars end.now) }
{
    text.as_bytes().ends_with_str(end.as_bytes())
}

// INDEXOF.
pub fn index_of(text: &Text, wanted: &Text) -> Value
    ensures { tree result ≡ indexof_tree (v_chars text.now ∷ v_chars wanted.now ∷ []) }
{
    place_value(place_of(text.as_str(), wanted.as_str()))
}

// A place as an int, -1 where there is none.
fn place_value(place: Option<usize>) -> Value
    ensures { tree result ≡ place_or_none place }
{
    match place {
        Some(place) => Value::Int(as_int(place)),
        None => Value::Int(-1),
    }
}

#[tactic(auto, using(crate::proofs::Sums::int_place))]
fn as_int(n: usize) -> i32
    ensures { result ≡ int_wrap w32 (pos n) }
{
    ((n % (1 << 32)) as u32).cast_signed()
}

// The place, in characters, at which the one text first stands in the other.
fn place_of(text: &str, wanted: &str) -> Option<usize>
    ensures { result ≡ first_place (chars text.now) (chars wanted.now) }
{
    match text.as_bytes().find(wanted.as_bytes()) {
        Some(at) => Some(characters(&text[..at])),
        None => None,
    }
}

// SUBSTRING.
pub fn substring(alloc: Global, text: &Text, start: i32, stop: i32) -> Result<Value, AllocError>
    ensures { IfOk result (λ v. tree v
        ≡ substring_tree (v_chars text.now ∷ v_int start ∷ v_int stop ∷ [])) }
{
    match part(text.as_str(), natural(start), natural(stop)) {
        Some(part) => Ok(Value::Chars(Text::from_str(alloc, part)?)),
        None => Ok(Value::Null),
    }
}

// The number, where it is not below 0.
fn natural(n: i32) -> Option<usize>
    ensures { MatchOption result ((k : ℕ) × (n ≡ negsuc k)) (λ k. n ≡ pos k) }
{
    if n < 0 { None } else { Some(n as usize) }
}

fn part(text: &str, start: Option<usize>, stop: Option<usize>) -> Option<&str>
    ensures { option_map (λ part. part.now) result
        ≡ option_map encode_utf8_all (part_from (chars text.now) start stop) }
{
    match (start, stop) {
        (Some(start), Some(stop)) => part_between(text, start, stop),
        _ => None,
    }
}

// The characters from start up to and without stop, or up to the end.
fn part_between(text: &str, start: usize, stop: usize) -> Option<&str>
    ensures { option_map (λ part. part.now) result
        ≡ option_map encode_utf8_all (substring (chars text.now) (pos start) (pos stop)) }
{
    if stop < start {
        return None;
    }
    match behind(text, start) {
        Some(rest) => Some(front(rest, stop - start)),
        None => None,
    }
}

// The text behind so many characters.
fn behind(text: &str, n: usize) -> Option<&str>
    ensures { MatchOption result (length (chars text.now) < n)
        (λ rest. (n ≤ length (chars text.now))
        × (rest.now ≡ encode_utf8_all (drop n (chars text.now)))) }
{
    let mut rest = text.chars();
    for _i in 0..n {
        match rest.next() {
            Some(_) => {}
            None => return None,
        }
    }
    Some(rest.as_str())
}

// So many characters, or all where there are fewer.
fn front(text: &str, n: usize) -> &str
    ensures { result.now ≡ encode_utf8_all (take n (chars text.now)) }
{
    match behind(text, n) {
        Some(rest) => &text[..text.len() - rest.len()],
        None => text,
    }
}

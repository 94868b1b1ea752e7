ghost use Rattle.std.specs.Prelude.{◌≡◌, ◌<◌, ◌++◌, ◌-◌, ◌^◌, ◌&&◌, [], true, min, map, bytes_eq, Some, None, IfOk, IfSome, OnOk, length, option_map, if◌then◌else◌};
ghost use Rattle.std.specs.Char.{encode_utf8, is_ascii_digit};
ghost use Rattle.std.specs.List.{list_all};
ghost use Rattle.std.specs.Str.{IsUtf8, str_eq_ignore_ascii_case};
ghost use Rattle.std.specs.Str.Parse.{digits_value};
ghost use Rattle.pig_syntax.specs.Tokens.{among_names, among_texts, is_word_byte, keyword_of, symbol_of};
ghost use Rattle.pig_syntax.specs.Scanner.{bytes_of, content_after, int_of, is_end, long_of, number_after, number_at, position_at, symbol_at, symbol_of_length, text_at, text_of, whole_after, with_rest, word_at};

use crate::scanning::{TextUnit, digits, next_unit, past_fraction, word_bytes};
use crate::tokens::{KEYWORDS, Keyword, SYMBOLS, Symbol, TokenForm};
use pig_value::{Blob, Text};
use std::alloc::{AllocError, Global};
use std::str;

// A token's form, and the bytes behind it.
pub type Found<'a> = Option<(TokenForm, &'a [u8])>;

// A number, where a digit begins the bytes.
#[tactic(auto, unfolding(crate::specs::Scanner::number_at))]
pub fn number(bytes: &[u8]) -> Found
    ensures { option_map (λ p. (p.0, p.1.now)) result ≡ number_at bytes.now }
{
    let (whole, behind) = digits(bytes);
    number_after(whole, behind)
}

// The number of these digits, by what stands behind them.
#[tactic(auto, unfolding(crate::specs::Scanner::number_after))]
fn number_after<'a>(whole: &[u8], behind: &'a [u8]) -> Found<'a>
    requires { list_all is_ascii_digit whole.now ≡ true }
    ensures { option_map (λ p. (p.0, p.1.now)) result ≡ number_after whole.now behind.now }
{
    match past_fraction(behind) {
        Some(rest) => Some((TokenForm::Float, rest)),
        None => whole_after(whole, behind),
    }
}

// The int or the long of these digits.
#[tactic(auto, unfolding(crate::specs::Scanner::whole_after))]
fn whole_after<'a>(whole: &[u8], behind: &'a [u8]) -> Found<'a>
    requires { list_all is_ascii_digit whole.now ≡ true }
    ensures { option_map (λ p. (p.0, p.1.now)) result ≡ whole_after whole.now behind.now }
{
    let [mark, rest @ ..] = behind else {
        return with_rest(int_of(whole), behind);
    };
    if *mark == b'L' || *mark == b'l' {
        with_rest(long_of(whole), rest)
    } else {
        with_rest(int_of(whole), behind)
    }
}

// A form, if there is one, with what stands behind it.
fn with_rest(form: Option<TokenForm>, rest: &[u8]) -> Found
    ensures { option_map (λ p. (p.0, p.1.now)) result ≡ with_rest rest.now form }
{
    match form {
        Some(form) => Some((form, rest)),
        None => None,
    }
}

// The int of these digits.
#[tactic(auto, unfolding(crate::specs::Scanner::int_of))]
fn int_of(digits: &[u8]) -> Option<TokenForm>
    requires { list_all is_ascii_digit digits.now ≡ true }
    ensures { result ≡ int_of digits.now }
{
    let value = value(digits);
    if value <= 2147483647 {
        Some(TokenForm::Int(value as i32))
    } else {
        None
    }
}

// The long of these digits.
#[tactic(auto, unfolding(crate::specs::Scanner::long_of))]
fn long_of(digits: &[u8]) -> Option<TokenForm>
    requires { list_all is_ascii_digit digits.now ≡ true }
    ensures { result ≡ long_of digits.now }
{
    let value = value(digits);
    if value <= 9223372036854775807 {
        Some(TokenForm::Long(value as i64))
    } else {
        None
    }
}

// The number that digits write, or the greatest `u64` where it is greater.
fn value(digits: &[u8]) -> u64
    requires { list_all is_ascii_digit digits.now ≡ true }
    ensures { result ≡ min (digits_value 10 digits.now) (2 ^ 64 - 1) }
{
    let mut value: u64 = 0;
    for digit in digits {
        value = value
            .saturating_mul(10)
            .saturating_add(u64::from(*digit - b'0'));
    }
    value
}

// A position, behind its `$`.
#[tactic(auto, using(crate::proofs::Numbers::short_number), unfolding(crate::specs::Scanner::position_at))]
pub fn position(bytes: &[u8]) -> Found
    ensures { option_map (λ p. (p.0, p.1.now)) result ≡ position_at bytes.now }
{
    let (number, rest) = digits(bytes);
    if !number.is_empty() && number.len() <= 9 {
        Some((TokenForm::Position(value(number) as u32), rest))
    } else {
        None
    }
}

// A symbol: that of two bytes before that of one.
#[tactic(auto, unfolding(crate::specs::Scanner::symbol_at))]
pub fn symbol(bytes: &[u8]) -> Found
    ensures { option_map (λ p. (p.0, p.1.now)) result ≡ symbol_at bytes.now }
{
    match symbol_of_length(bytes, 2) {
        Some(found) => Some(found),
        None => symbol_of_length(bytes, 1),
    }
}

// The symbol of so many bytes.
#[tactic(auto, unfolding(crate::specs::Scanner::symbol_of_length))]
fn symbol_of_length(bytes: &[u8], length: usize) -> Found
    ensures { option_map (λ p. (p.0, p.1.now)) result ≡ symbol_of_length length bytes.now }
{
    let (text, rest) = bytes.split_at(length.min(bytes.len()));
    match symbol_of(text) {
        Some(symbol) => Some((TokenForm::Symbol(symbol), rest)),
        None => None,
    }
}

// The symbol that a text is.
fn symbol_of(text: &[u8]) -> Option<Symbol>
    ensures { result ≡ symbol_of text.now }
{
    among_texts(&SYMBOLS, text)
}

fn among_texts(mut table: &[(&[u8], Symbol)], text: &[u8]) -> Option<Symbol>
    ensures { result ≡ among_texts (map (λ e. (e.0.now, e.1)) table.entry.now) text.now }
{
    while let [entry, rest @ ..] = table {
        if same_bytes(entry.0, text) {
            return Some(entry.1);
        }
        table = rest;
    }
    None
}

fn same_bytes(a: &[u8], b: &[u8]) -> bool
    ensures { result ≡ bytes_eq a.now b.now }
{
    a == b
}

// A word, where a letter begins the bytes.
#[tactic(auto, unfolding(crate::specs::Scanner::word_at, crate::specs::Scanner::word_form))]
pub fn word(alloc: Global, bytes: &[u8]) -> Result<Found, AllocError>
    ensures { IfOk result (λ found. option_map (λ p. (p.0, p.1.now)) found ≡ word_at bytes.now) }
{
    let (word, rest) = word_bytes(bytes);
    match keyword_of(word) {
        Some(keyword) => Ok(Some((TokenForm::Keyword(keyword), rest))),
        None => {
            let name = name(alloc, word)?;
            Ok(Some((TokenForm::Ident(name), rest)))
        }
    }
}

// The text of a name's bytes.
fn name(alloc: Global, word: &[u8]) -> Result<Text, AllocError>
    requires { list_all is_word_byte word.now ≡ true }
    ensures { IfOk result (λ name. name ≡ word.now) }
{
    let text = String::from_utf8_lossy(alloc, word)?;
    Ok(Text::from_string(text))
}

// The keyword that a word is, in any case of its letters.
fn keyword_of(word: &[u8]) -> Option<Keyword>
    ensures { result ≡ keyword_of word.now }
{
    among_names(&KEYWORDS, word)
}

fn among_names(mut table: &[(&[u8], Keyword)], word: &[u8]) -> Option<Keyword>
    ensures { result ≡ among_names (map (λ e. (e.0.now, e.1)) table.entry.now) word.now }
{
    while let [entry, rest @ ..] = table {
        if same_word(entry.0, word) {
            return Some(entry.1);
        }
        table = rest;
    }
    None
}

fn same_word(a: &[u8], b: &[u8]) -> bool
    ensures { result ≡ str_eq_ignore_ascii_case a.now b.now }
{
    a.eq_ignore_ascii_case(b)
}

// A text, behind its first quote.
#[tactic(auto, using(crate::proofs::Texts::content_utf8), unfolding(crate::specs::Scanner::text_at))]
pub fn text(alloc: Global, bytes: &[u8]) -> Result<Found, AllocError>
    ensures { IfOk result (λ found. option_map (λ p. (p.0, p.1.now)) found ≡ text_at bytes.now) }
{
    match content(alloc, bytes)? {
        Some((content, rest)) => {
            let body = &bytes[..bytes.len() - rest.len() - 1];
            match text_of(body, content) {
                Some(text) => Ok(Some((TokenForm::Text(text), rest))),
                None => Ok(None),
            }
        }
        None => Ok(None),
    }
}

// The content, where the bytes that write it are UTF-8.
#[tactic(auto, using(crate::proofs::Utf8::text_found, crate::proofs::Utf8::text_lost))]
fn text_of(body: &[u8], content: Blob) -> Option<Text>
    requires { IsUtf8 body.now → IsUtf8 content }
    ensures { result ≡ text_of body.now content }
{
    match str::from_utf8(body) {
        Ok(_) => whole_text(content),
        Err(_) => None,
    }
}

// UTF-8 as text.
fn whole_text(content: Blob) -> Option<Text>
    requires { IsUtf8 content }
    ensures { result ≡ Some content }
{
    String::from_utf8(content.into_vec())
        .ok()
        .map(Text::from_string)
}

// The content of a text up to its closing quote, and the bytes behind that.
fn content(alloc: Global, bytes: &[u8]) -> Result<Option<(Blob, &[u8])>, AllocError>
    ensures within { IfOk result (λ found. IfSome found (λ p. length p.1.now < length bytes.now)) }
    ensures value { IfOk result (λ found. option_map (λ p. (p.0, p.1.now)) found
        ≡ content_after (length bytes.now) [] bytes.now) }
{
    let mut read = Blob::new(alloc);
    let mut rest = bytes;
    for _turn in 0..bytes.len() {
        let (unit, behind) = match next_unit(rest) {
            Some(next) => next,
            None => return Ok(None),
        };
        if is_end(unit) {
            return Ok(Some((read, behind)));
        }
        push_unit(&mut read, unit)?;
        rest = behind;
    }
    Ok(None)
}

fn is_end(unit: TextUnit) -> bool
    ensures { result ≡ is_end unit }
{
    match unit {
        TextUnit::End => true,
        TextUnit::Byte(_) | TextUnit::Char(_) => false,
    }
}

// Adds what a unit means.
fn push_unit(read: &mut Blob, unit: TextUnit) -> Result<(), AllocError>
    ensures { OnOk result (read.new ≡ read.old ++ bytes_of unit) }
{
    match unit {
        TextUnit::End => Ok(()),
        TextUnit::Byte(byte) => read.push(byte),
        TextUnit::Char(character) => push_char(read, character),
    }
}

fn push_char(read: &mut Blob, character: char) -> Result<(), AllocError>
    ensures { OnOk result (read.new ≡ read.old ++ encode_utf8 character) }
{
    let mut buffer = [0; 4];
    let encoded = character.encode_utf8(&mut buffer);
    push_bytes(read, encoded.as_bytes())
}

fn push_bytes(read: &mut Blob, bytes: &[u8]) -> Result<(), AllocError>
    ensures { OnOk result (read.new ≡ read.old ++ bytes.now) }
{
    for byte in bytes {
        read.push(*byte)?;
    }
    Ok(())
}

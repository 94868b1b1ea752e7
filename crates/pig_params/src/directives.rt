ghost use Rattle.std.specs.Prelude.{◌≡◌, ◌≤◌, length, take, drop};
ghost use Rattle.std.specs.List.{prefix_len};
ghost use Rattle.std.specs.Option.{option_map};
ghost use Rattle.pig_params.specs.Directives.{behind_blank, candidate_at, given_at, is_blank, is_end, is_nothing, is_plain, is_quote, line_of, past_blanks, past_one, plain_at, value_text_at, word_of};
ghost use Rattle.pig_params.specs.LineViews.{IsWithin, line_view};

use crate::cuts::cut_at;
use crate::names::read_name;

// The word of a directive.
#[derive(Debug, Clone, Copy, PartialEq, Eq, Drop)]
pub(crate) enum Word {
    // `%declare`
    Declare,
    // `%default`
    Default,
}

// What a line of a script is.
#[derive(Drop)]
pub(crate) enum Line<'a> {
    Text,
    Directive {
        word: Word,
        name: &'a [u8],
        value: &'a [u8],
    },
    // A candidate that is no directive, behind so many blanks.
    Off {
        before: usize,
    },
}

fn is_blank(byte: u8) -> bool
    ensures { result ≡ is_blank byte }
{
    byte == b' ' || byte == b'\t'
}

fn is_quote(byte: u8) -> bool
    ensures { result ≡ is_quote byte }
{
    byte == b'\'' || byte == b'"'
}

// A byte of a value without quotes.
fn is_plain(byte: u8) -> bool
    ensures { result ≡ is_plain byte }
{
    !(is_blank(byte) || byte == b'\r' || byte == b';' || is_quote(byte))
}

fn blanks_len(bytes: &[u8]) -> usize
    ensures is { result ≡ prefix_len is_blank bytes.now }
    ensures within { result ≤ length bytes.now }
{
    bytes.iter().take_while(|b| is_blank(**b)).count()
}

fn past_blanks(bytes: &[u8]) -> &[u8]
    ensures { result.now ≡ past_blanks bytes.now }
{
    &bytes[blanks_len(bytes)..]
}

fn word_of(bytes: &[u8]) -> Option<Word>
    ensures { result ≡ word_of bytes.now }
{
    if bytes.eq_ignore_ascii_case(b"%declare") {
        Some(Word::Declare)
    } else if bytes.eq_ignore_ascii_case(b"%default") {
        Some(Word::Default)
    } else {
        None
    }
}

fn behind_blank(bytes: &[u8]) -> Option<&[u8]>
    ensures { option_map (λ s. s.now) result ≡ behind_blank bytes.now }
{
    match bytes {
        [first, rest @ ..] if is_blank(*first) => Some(rest),
        _ => None,
    }
}

// The word of a candidate, and what stands behind it and a blank.
fn read_candidate(bytes: &[u8]) -> Option<(Word, &[u8])>
    ensures { option_map (λ p. (p.0, p.1.now)) result ≡ candidate_at bytes.now }
{
    let (front, behind) = bytes.split_at(bytes.len().min(8));
    let word = word_of(front)?;
    let rest = behind_blank(behind)?;
    Some((word, rest))
}

fn plain_len(bytes: &[u8]) -> usize
    ensures is { result ≡ prefix_len is_plain bytes.now }
    ensures within { result ≤ length bytes.now }
{
    bytes.iter().take_while(|b| is_plain(**b)).count()
}

fn read_plain(bytes: &[u8]) -> Option<(&[u8], &[u8])>
    ensures { option_map (λ p. (p.0.now, p.1.now)) result ≡ plain_at bytes.now }
{
    let length = plain_len(bytes);
    if length == 0 {
        None
    } else {
        Some(bytes.split_at(length))
    }
}

// A value, between quotes or without them, and what stands behind it.
fn read_value(bytes: &[u8]) -> Option<(&[u8], &[u8])>
    ensures { option_map (λ p. (p.0.now, p.1.now)) result ≡ value_text_at bytes.now }
{
    match bytes {
        [] => None,
        [quote, rest @ ..] if is_quote(*quote) => cut_at(*quote, rest),
        _ => read_plain(bytes),
    }
}

// The bytes without such a byte in front.
fn past_one(byte: u8, bytes: &[u8]) -> &[u8]
    ensures { result.now ≡ past_one byte bytes.now }
{
    match bytes {
        [first, rest @ ..] if *first == byte => rest,
        _ => bytes,
    }
}

// Whether a line ends here: at most one `;` and at most one CR, and blanks before each.
fn is_end(bytes: &[u8]) -> bool
    ensures { result ≡ is_end bytes.now }
{
    past_one(b'\r', past_blanks(past_one(b';', past_blanks(bytes)))).is_empty()
}

// A name, one or more blanks, a value, and nothing behind them.
#[tactic(auto, unfolding(crate::specs::Directives::given_at))]
fn read_given(bytes: &[u8]) -> Option<(&[u8], &[u8])>
    ensures { option_map (λ p. (p.0.now, p.1.now)) result ≡ given_at bytes.now }
{
    let (name, rest) = read_name(past_blanks(bytes))?;
    let (value, rest) = read_value(past_blanks(behind_blank(rest)?))?;
    if is_end(rest) {
        Some((name, value))
    } else {
        None
    }
}

/// What a line is.
pub(crate) fn read_line(line: &[u8]) -> Line<'_>
    ensures line { line_view result ≡ line_of line.now }
    ensures within { IsWithin result (length line.now) }
{
    let before = blanks_len(line);
    let Some((word, rest)) = read_candidate(&line[before..]) else {
        return Line::Text;
    };
    match read_given(rest) {
        Some((name, value)) => Line::Directive { word, name, value },
        None => Line::Off { before },
    }
}

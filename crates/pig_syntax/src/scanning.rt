ghost use Rattle.std.specs.Prelude.{◌≡◌, true, ◌<◌, ◌≤◌, ◌+◌, IfSome, length, take_while, option_map};
ghost use Rattle.std.specs.Char.{is_ascii_digit};
ghost use Rattle.std.specs.List.{list_all};
ghost use Rattle.pig_syntax.specs.Tokens.{after_close, after_comment, after_gap, begins_as_word, escape_of, from_lf, is_in_line, is_plain, is_space, is_word_byte, strip};
ghost use Rattle.pig_syntax.specs.Scanner.{escape_at, named_at, character_of, hex_of, named_by, past, past_digits, past_either, past_exponent, past_fraction, run, unit_at};

// A step through a text: its closing quote, or what a byte or an escape in it means.
#[derive(Debug, Clone, Copy, Drop)]
pub enum TextUnit {
    End,
    Byte(u8),
    Char(char),
}

// The bytes behind a byte of white space or a comment, where one begins them.
#[tactic(auto, unfolding(crate::specs::Tokens::after_gap))]
pub fn after_gap(bytes: &[u8]) -> Option<&[u8]>
    ensures value { option_map (λ rest. rest.now) result ≡ after_gap bytes.now }
    ensures within { IfSome result (λ rest. length rest.now < length bytes.now) }
{
    let [first, rest @ ..] = bytes else {
        return None;
    };
    if is_space(*first) {
        Some(rest)
    } else {
        after_comment(bytes)
    }
}

#[tactic(auto, unfolding(crate::specs::Tokens::is_space))]
fn is_space(byte: u8) -> bool
    ensures { result ≡ is_space byte }
{
    byte == b' ' || byte == b'\t' || byte == b'\r' || byte == b'\n'
}

// The bytes behind a comment.
#[tactic(auto, unfolding(crate::specs::Tokens::after_comment))]
fn after_comment(bytes: &[u8]) -> Option<&[u8]>
    ensures value { option_map (λ rest. rest.now) result ≡ after_comment bytes.now }
    ensures within { IfSome result (λ rest. length rest.now < length bytes.now) }
{
    match after(bytes, b"--") {
        Some(line) => Some(from_lf(line)),
        None => match after(bytes, b"/*") {
            Some(comment) => after_close(comment),
            None => None,
        },
    }
}

// The bytes from the first LF on.
#[tactic(auto, unfolding(crate::specs::Tokens::from_lf))]
fn from_lf(bytes: &[u8]) -> &[u8]
    ensures value { result.now ≡ from_lf bytes.now }
    ensures within { length result.now ≤ length bytes.now }
{
    bytes.split_at(line_len(bytes)).1
}

// How many bytes stand before the first LF.
fn line_len(bytes: &[u8]) -> usize
    ensures { result ≡ length (take_while is_in_line bytes.now) }
{
    bytes.iter().take_while(|b| **b != b'\n').count()
}

// The bytes behind the first `*/`.
#[tactic(auto, unfolding(crate::specs::Tokens::after_close))]
fn after_close(bytes: &[u8]) -> Option<&[u8]>
    ensures value { option_map (λ rest. rest.now) result ≡ after_close bytes.now }
    ensures within { IfSome result (λ rest. length rest.now < length bytes.now) }
{
    let mut rest = bytes;
    while let [_, next @ ..] = rest {
        if let Some(behind) = after(rest, b"*/") {
            return Some(behind);
        }
        rest = next;
    }
    None
}

// The bytes behind `prefix`, where they begin with it.
pub fn after<'a>(bytes: &'a [u8], prefix: &[u8]) -> Option<&'a [u8]>
    ensures value { option_map (λ rest. rest.now) result ≡ strip prefix.now bytes.now }
    ensures length { IfSome result (λ rest. length rest.now + length prefix.now
        ≡ length bytes.now) }
{
    bytes.strip_prefix(prefix)
}

// Whether a byte that goes on a word begins the bytes.
pub fn begins_as_word(bytes: &[u8]) -> bool
    ensures { result ≡ begins_as_word bytes.now }
{
    match bytes {
        [first, ..] => is_word_byte(*first),
        [] => false,
    }
}

#[tactic(auto, unfolding(crate::specs::Tokens::is_word_byte))]
fn is_word_byte(byte: u8) -> bool
    ensures { result ≡ is_word_byte byte }
{
    byte.is_ascii_alphanumeric() || byte == b'_'
}

// The bytes of a word at the front, and those behind them.
#[tactic(auto, using(crate::proofs::Runs::run_passes), unfolding(crate::specs::Scanner::run, crate::specs::Scanner::past))]
pub fn word_bytes(bytes: &[u8]) -> (&[u8], &[u8])
    ensures word { list_all is_word_byte result.0.now ≡ true }
    ensures front { result.0.now ≡ run is_word_byte bytes.now }
    ensures back { result.1.now ≡ past is_word_byte bytes.now }
{
    bytes.split_at(word_len(bytes))
}

// How many bytes of a word stand at the front.
fn word_len(bytes: &[u8]) -> usize
    ensures { result ≡ length (take_while is_word_byte bytes.now) }
{
    bytes.iter().take_while(|b| is_word_byte(**b)).count()
}

// The digits at the front, and the bytes behind them.
#[tactic(auto, using(crate::proofs::Runs::run_passes), unfolding(crate::specs::Scanner::run, crate::specs::Scanner::past))]
pub fn digits(bytes: &[u8]) -> (&[u8], &[u8])
    ensures digits { list_all is_ascii_digit result.0.now ≡ true }
    ensures front { result.0.now ≡ run is_ascii_digit bytes.now }
    ensures back { result.1.now ≡ past is_ascii_digit bytes.now }
{
    bytes.split_at(digits_len(bytes))
}

// How many digits stand at the front.
fn digits_len(bytes: &[u8]) -> usize
    ensures { result ≡ length (take_while is_ascii_digit bytes.now) }
{
    bytes.iter().take_while(|b| b.is_ascii_digit()).count()
}

// The rest of a float behind its first digits: a point, digits, an optional exponent and an optional suffix.
#[tactic(auto, unfolding(crate::specs::Scanner::past_fraction))]
pub fn past_fraction(bytes: &[u8]) -> Option<&[u8]>
    ensures { option_map (λ rest. rest.now) result ≡ past_fraction bytes.now }
{
    let point = after(bytes, b".")?;
    let fraction = past_digits(point)?;
    Some(past_either(past_exponent(fraction), b'F', b'f'))
}

// The bytes behind an optional exponent.
#[tactic(auto, unfolding(crate::specs::Scanner::past_exponent))]
fn past_exponent(bytes: &[u8]) -> &[u8]
    ensures { result.now ≡ past_exponent bytes.now }
{
    let [mark, rest @ ..] = bytes else {
        return bytes;
    };
    if *mark == b'E' || *mark == b'e' {
        past_digits(past_either(rest, b'+', b'-')).unwrap_or(bytes)
    } else {
        bytes
    }
}

// The bytes behind digits, of which there is at least one.
#[tactic(auto, unfolding(crate::specs::Scanner::past_digits))]
fn past_digits(bytes: &[u8]) -> Option<&[u8]>
    ensures { option_map (λ rest. rest.now) result ≡ past_digits bytes.now }
{
    let [first, ..] = bytes else {
        return None;
    };
    if first.is_ascii_digit() {
        Some(digits(bytes).1)
    } else {
        None
    }
}

// The bytes behind an optional byte, one of two.
#[tactic(auto, unfolding(crate::specs::Scanner::past_either))]
fn past_either(bytes: &[u8], one: u8, other: u8) -> &[u8]
    ensures { result.now ≡ past_either one other bytes.now }
{
    let [first, rest @ ..] = bytes else {
        return bytes;
    };
    if *first == one || *first == other {
        rest
    } else {
        bytes
    }
}

// The next step through a text.
#[tactic(auto, unfolding(crate::specs::Scanner::unit_at))]
pub fn next_unit(bytes: &[u8]) -> Option<(TextUnit, &[u8])>
    ensures value { option_map (λ p. (p.0, p.1.now)) result ≡ unit_at bytes.now }
    ensures within { IfSome result (λ p. length p.1.now < length bytes.now) }
{
    let [first, rest @ ..] = bytes else {
        return None;
    };
    if *first == b'\'' {
        Some((TextUnit::End, rest))
    } else if *first == b'\\' {
        escape(rest)
    } else if is_plain(*first) {
        Some((TextUnit::Byte(*first), rest))
    } else {
        None
    }
}

#[tactic(auto, unfolding(crate::specs::Tokens::is_plain))]
fn is_plain(byte: u8) -> bool
    ensures { result ≡ is_plain byte }
{
    !(byte == b'\'' || byte == b'\\' || byte == b'\n')
}

// What stands behind a backslash.
#[tactic(auto, unfolding(crate::specs::Scanner::escape_at))]
fn escape(bytes: &[u8]) -> Option<(TextUnit, &[u8])>
    ensures value { option_map (λ p. (p.0, p.1.now)) result ≡ escape_at bytes.now }
    ensures within { IfSome result (λ p. length p.1.now < length bytes.now) }
{
    let [letter, rest @ ..] = bytes else {
        return None;
    };
    if *letter == b'u' {
        return named(rest);
    }
    match escape_of(*letter) {
        Some(byte) => Some((TextUnit::Byte(byte), rest)),
        None => None,
    }
}

#[tactic(auto, unfolding(crate::specs::Tokens::escape_of))]
fn escape_of(letter: u8) -> Option<u8>
    ensures { result ≡ escape_of letter }
{
    if letter == b'\'' {
        Some(b'\'')
    } else if letter == b'\\' {
        Some(b'\\')
    } else if letter == b't' {
        Some(b'\t')
    } else {
        None
    }
}

// The character that four hexadecimal digits name.
#[tactic(auto, unfolding(crate::specs::Scanner::named_at))]
fn named(bytes: &[u8]) -> Option<(TextUnit, &[u8])>
    ensures value { option_map (λ p. (p.0, p.1.now)) result ≡ named_at bytes.now }
    ensures within { IfSome result (λ p. length p.1.now < length bytes.now) }
{
    let [a, b, c, d, rest @ ..] = bytes else {
        return None;
    };
    match named_by(*a, *b, *c, *d) {
        Some(character) => Some((TextUnit::Char(character), rest)),
        None => None,
    }
}

#[tactic(auto, unfolding(crate::specs::Scanner::named_by))]
fn named_by(a: u8, b: u8, c: u8, d: u8) -> Option<char>
    ensures { result ≡ named_by a b c d }
{
    let x = hex_of(a)?;
    let y = hex_of(b)?;
    let z = hex_of(c)?;
    let w = hex_of(d)?;
    character_of(((x * 16 + y) * 16 + z) * 16 + w)
}

// The character of a number: no LF, and no surrogate.
#[tactic(auto, unfolding(crate::specs::Scanner::character_of))]
fn character_of(number: u32) -> Option<char>
    ensures { result ≡ character_of number }
{
    if number == 10 {
        None
    } else {
        char::from_u32(number)
    }
}

// The number of a hexadecimal digit.
#[tactic(auto, unfolding(crate::specs::Scanner::hex_of, crate::specs::Tokens::is_hex_digit))]
fn hex_of(byte: u8) -> Option<u32>
    ensures value { result ≡ hex_of byte }
    ensures small { IfSome result (λ n. n < 16) }
{
    (byte as char).to_digit(16)
}

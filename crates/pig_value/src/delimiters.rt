ghost use Rattle.std.specs.Prelude.{◌≡◌, ◌<◌, ◌≢◌, MatchResult};
ghost use Rattle.pig_value.specs.Delimiters.{IsDelimiter, delimiter_of};

use std::marker::Model;

/// The text is no delimiter.
#[derive(Debug, Drop)]
pub struct BadDelimiter;

/// The byte between the fields of a line: one character from U+0000 to U+007F other than LF and CR.
///
/// Contracts see a delimiter as its byte.
#[derive(Debug, Clone, Copy, Drop)]
pub struct Delim {
    byte: u8,
}

impl Model for Delim {
    ghost use Rattle.std.specs.Prelude.{ℕ};
    ghost use Rattle.pig_value.specs.Delimiters.{IsDelimiter};

    ghost Value = { ℕ };

    ghost view = { λ d. d.byte };

    ghost invariant = { λ d. IsDelimiter d.byte };

    ghost inverse = { λ byte. record { byte = byte } };
}

impl Delim {
    /// The delimiter that a text names: its one character, or the tab for a backslash and `t`.
    pub fn new(text: &str) -> Result<Delim, BadDelimiter>
        ensures { MatchResult result (λ d. delimiter_of text.now ≡ Some d)
            (λ _. delimiter_of text.now ≡ None) }
    {
        let byte = match text.as_bytes() {
            [byte] => *byte,
            [b'\\', b't'] => b'\t',
            _ => return Err(BadDelimiter),
        };
        if byte < 128 && byte != b'\n' && byte != b'\r' {
            Ok(Delim { byte })
        } else {
            Err(BadDelimiter)
        }
    }

    /// The tab.
    pub fn tab() -> Delim
        ensures { result ≡ 9 }
    {
        Delim { byte: b'\t' }
    }

    /// The delimiter's byte.
    pub fn byte(self) -> u8
        ensures byte { result ≡ self }
        ensures plain { IsDelimiter result }
    {
        self.byte
    }
}

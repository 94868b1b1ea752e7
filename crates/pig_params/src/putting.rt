ghost use Rattle.std.specs.Prelude.{◌≡◌, ◌+◌, ◌^◌, ◌<◌, ◌++◌, ℕ, length, OnOk, IfErr};
ghost use Rattle.std.specs.List.{slice_split};
ghost use Rattle.std.specs.Option.{option_map};
ghost use Rattle.pig_params.specs.Cuts.{is_byte};
ghost use Rattle.pig_params.specs.Directives.{line_of};
ghost use Rattle.pig_params.specs.Known.{Passes, value_in};
ghost use Rattle.pig_params.specs.Making.{IsCause, Puts, PutsOutcome};
ghost use Rattle.pig_params.specs.Substitution.{closed_at, joined, put_line, put_parts, put_use, put_uses, use_at};

use crate::ParamFault;
use crate::cuts::cut_at;
use crate::directives::{Line, read_line};
use crate::known::{Known, note, value_of};
use crate::making::Made;
use crate::names::read_name;
use std::alloc::AllocError;

// The name behind a `$`, as `n` or `{n}`, and what stands behind it.
#[tactic(auto, unfolding(crate::specs::Substitution::use_at))]
fn read_use(part: &[u8]) -> Option<(&[u8], &[u8])>
    ensures { option_map (λ p. (p.0.now, p.1.now)) result ≡ use_at part.now }
{
    match part {
        [b'{', inside @ ..] => read_closed(inside),
        _ => read_name(part),
    }
}

// A name and the `}` behind it.
fn read_closed(bytes: &[u8]) -> Option<(&[u8], &[u8])>
    ensures { option_map (λ p. (p.0.now, p.1.now)) result ≡ closed_at bytes.now }
{
    let (name, behind) = read_name(bytes)?;
    match behind {
        [b'}', rest @ ..] => Some((name, rest)),
        _ => None,
    }
}

// Puts one text and then another.
fn put_both(made: &mut Made, first: &[u8], second: &[u8]) -> Result<(), AllocError>
    ensures puts { OnOk result (Puts (first.now ++ second.now) made.old made.new) }
    ensures most { made.new.most ≡ made.old.most }
{
    made.put(first)?;
    made.put(second)
}

// Puts the part of a line behind a `$` that stands at the offset.
fn put_use(part: &[u8], at: usize, known: &Known, made: &mut Made) -> Result<(), ParamFault>
    ensures puts { OnOk result (PutsOutcome (put_use (value_in known.now) at part.now
        (use_at part.now)) made.old made.new) }
    ensures cause { IfErr result (IsCause (put_use (value_in known.now) at part.now
        (use_at part.now))) }
    ensures most { made.new.most ≡ made.old.most }
{
    let Some((name, rest)) = read_use(part) else {
        put_both(made, b"$", part)?;
        return Ok(());
    };
    match value_of(known, name) {
        Some(value) => {
            put_both(made, value, rest)?;
            Ok(())
        }
        None => Err(ParamFault::Missing { offset: at as u64 }),
    }
}

// Puts the parts of a line behind a `$` that stands at the offset.
fn put_uses(parts: &[u8], at: usize, known: &Known, made: &mut Made) -> Result<(), ParamFault>
    requires { at + length parts.now < 2 ^ 64 }
    ensures puts { OnOk result (PutsOutcome (joined (put_uses (value_in known.now) at
        (slice_split (is_byte 36) parts.now))) made.old made.new) }
    ensures cause { IfErr result (IsCause (joined (put_uses (value_in known.now) at
        (slice_split (is_byte 36) parts.now)))) }
    ensures most { made.new.most ≡ made.old.most }
{
    let mut left = parts;
    let mut dollar = at;
    while let Some((part, behind)) = cut_at(b'$', left) {
        put_use(part, dollar, known, made)?;
        dollar += part.len() + 1;
        left = behind;
    }
    put_use(left, dollar, known, made)
}

// Puts a line with the values in it.
fn put_text(line: &[u8], at: usize, known: &Known, made: &mut Made) -> Result<(), ParamFault>
    requires { at + length line.now < 2 ^ 64 }
    ensures puts { OnOk result (PutsOutcome (joined (put_parts (value_in known.now) at
        (slice_split (is_byte 36) line.now))) made.old made.new) }
    ensures cause { IfErr result (IsCause (joined (put_parts (value_in known.now) at
        (slice_split (is_byte 36) line.now)))) }
    ensures most { made.new.most ≡ made.old.most }
{
    let Some((front, parts)) = cut_at(b'$', line) else {
        made.put(line)?;
        return Ok(());
    };
    made.put(front)?;
    put_uses(parts, at + front.len(), known, made)
}

// Puts what a line becomes, and notes what it gives.
pub(crate) fn put_line<'a>(
    line: &'a [u8],
    at: usize,
    known: &mut Known<'a>,
    made: &mut Made,
) -> Result<(), ParamFault>
    requires { at + length line.now < 2 ^ 64 }
    ensures puts { OnOk result (PutsOutcome (put_line (value_in known.old) at line.entry.now
        (line_of line.entry.now)) made.old made.new) }
    ensures cause { IfErr result (IsCause (put_line (value_in known.old) at line.entry.now
        (line_of line.entry.now))) }
    ensures most { made.new.most ≡ made.old.most }
    ensures passes { OnOk result (Passes line.entry.now known.old known.new) }
{
    match read_line(line) {
        Line::Text => put_text(line, at, known, made),
        Line::Directive { word, name, value } => {
            note(known, word, name, value)?;
            Ok(())
        }
        Line::Off { before } => Err(ParamFault::Missing {
            offset: (at + before) as u64,
        }),
    }
}

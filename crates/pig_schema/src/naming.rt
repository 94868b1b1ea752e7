ghost use Rattle.std.specs.Prelude.{◌≡◌, ◌∷◌, [], ◌<◌, ◌≤◌, ◌+◌, Ok, Err, length, IfOk, IfErr, IfSome, IfNone, nat_eq, option_map};
ghost use Rattle.std.specs.List.{ends_with};
ghost use Rattle.std.specs.Str.{bytes_eq};
ghost use Rattle.pig_schema.specs.declared.naming.NameFault.TheVariants.{Ambiguous, PositionOut};
ghost use Rattle.pig_schema.specs.FieldTrees.{name_of, names_of};
ghost use Rattle.pig_schema.specs.Names.{colons, fits, has_name, fits_field, places_from, meaning, IsMeant, IsNameFault};

use crate::{Field, Schema};

/// Why a name or a position means no field.
#[derive(Debug, Clone, Copy, PartialEq, Eq, Drop)]
pub enum NameFault {
    /// The name fits no field.
    Unknown,
    /// The name fits some field, and means none.
    Ambiguous,
    /// The position is at least the number of fields.
    PositionOut,
}

/// The place of the field that a name means.
///
/// A name fits a field whose name it is, or whose name ends in `::` followed by it. Where exactly one field
/// has the name, that one is meant; where none has it and exactly one fits, that one.
///
/// # Errors
///
/// [`NameFault::Unknown`] where no field fits, [`NameFault::Ambiguous`] otherwise.
pub fn find(s: &Schema, name: &str) -> Result<usize, NameFault>
    ensures is { result ≡ meaning (names_of s.now) name.now }
    ensures meant { IfOk result (IsMeant (names_of s.now) name.now) }
    ensures fault { IfErr result (IsNameFault (names_of s.now) name.now) }
{
    meaning_of(s.as_slice(), name.as_bytes())
}

fn meaning_of(fields: &[Field], name: &[u8]) -> Result<usize, NameFault>
    ensures { result ≡ meaning (names_of fields.now) name.now }
{
    if let Some(place) = next_named(fields, name, 0) {
        return only(place, next_named(fields, name, place + 1));
    }
    match next_fitting(fields, name, 0) {
        Some(place) => only(place, next_fitting(fields, name, place + 1)),
        None => Err(NameFault::Unknown),
    }
}

/// The place of the field at a position, counted from 0.
///
/// # Errors
///
/// [`NameFault::PositionOut`] where the position is at least the number of fields.
pub fn at(s: &Schema, position: u32) -> Result<usize, NameFault>
    ensures place { IfOk result (λ place. place ≡ position) }
    ensures within { IfOk result (λ place. place < length s.now) }
    ensures fault { IfErr result (λ fault. fault ≡ PositionOut) }
    ensures out { IfErr result (λ _. length s.now ≤ position) }
{
    let place = position as usize;
    if place < s.len() {
        Ok(place)
    } else {
        Err(NameFault::PositionOut)
    }
}

// The place, where there is no other.
fn only(place: usize, other: Option<usize>) -> Result<usize, NameFault>
    ensures alone { IfNone other (result ≡ Ok place) }
    ensures two { IfSome other (λ _. result ≡ Err Ambiguous) }
{
    match other {
        None => Ok(place),
        Some(_) => Err(NameFault::Ambiguous),
    }
}

// The first place from `start` on whose field has the name.
fn next_named(fields: &[Field], name: &[u8], start: usize) -> Option<usize>
    ensures found { IfSome result (λ place. places_from (has_name name.now)
        (names_of fields.now) start ≡ place ∷ places_from (has_name name.now) (names_of fields.now)
        (place + 1)) }
    ensures within { IfSome result (λ place. place < length fields.now) }
    ensures none { IfNone result (places_from (has_name name.now) (names_of fields.now) start
        ≡ []) }
{
    for place in start..fields.len() {
        if is_named(&fields[place], name) {
            return Some(place);
        }
    }
    None
}

// The first place from `start` on whose field fits.
fn next_fitting(fields: &[Field], name: &[u8], start: usize) -> Option<usize>
    ensures found { IfSome result (λ place. places_from (fits_field name.now)
        (names_of fields.now) start ≡ place ∷ places_from (fits_field name.now)
        (names_of fields.now) (place + 1)) }
    ensures within { IfSome result (λ place. place < length fields.now) }
    ensures none { IfNone result (places_from (fits_field name.now) (names_of fields.now) start
        ≡ []) }
{
    for place in start..fields.len() {
        if is_fitting(&fields[place], name) {
            return Some(place);
        }
    }
    None
}

fn is_named(field: &Field, name: &[u8]) -> bool
    ensures { result ≡ has_name name.now (name_of field.now) }
{
    match &field.name {
        Some(full) => is_same(full.as_bytes(), name),
        None => false,
    }
}

fn is_fitting(field: &Field, name: &[u8]) -> bool
    ensures { result ≡ fits_field name.now (name_of field.now) }
{
    match &field.name {
        Some(full) => is_fit(full.as_bytes(), name),
        None => false,
    }
}

fn is_same(full: &[u8], name: &[u8]) -> bool
    ensures { result ≡ bytes_eq full.now name.now }
{
    full == name
}

// Whether the full name is the name, or ends in `::` followed by it.
fn is_fit(full: &[u8], name: &[u8]) -> bool
    ensures { result ≡ fits full.now name.now }
{
    match full.strip_suffix(name) {
        Some(before) => before.is_empty() || ends_in_colons(before),
        None => false,
    }
}

fn ends_in_colons(before: &[u8]) -> bool
    ensures { result ≡ ends_with nat_eq before.now colons }
{
    before.ends_with(b"::")
}

ghost use Rattle.std.specs.Prelude.{◌≡◌, ◌==◌, length, map, IfOk};
ghost use Rattle.std.specs.List.{list_all};
ghost use Rattle.std.specs.Option.{option_and_then, option_copied, option_map};
ghost use Rattle.pig_value.specs.FunctionKinds.{concat_kind, function_kind, ranked_kind, sum_kind, tobag_kind};
ghost use Rattle.pig_value.specs.Kinds.{kind_eq};
ghost use Rattle.pig_value.specs.Trees.{kind_tree, kinds_list, kinds_of, k_bag, more_kinds, no_kinds};
ghost use Rattle.pig_typed.specs.Signatures.{chosen_kind, column, counted_kind, cut_kind, emptied_kind, is_int, is_text, one_kind, only, signature_kind, summed_kind, text_and_ints, two_texts};

use crate::operators::minus;
use pig_value::{Function, Kind, Kinds, Seq, copy_kind, copy_kinds, same_kind};
use std::alloc::{AllocError, Global};

// The kind of what a function gives of arguments of these kinds: none where it takes no such arguments.
pub fn called(alloc: Global, function: Function, kinds: Kinds) -> Result<Option<Kind>, AllocError>
    ensures { IfOk result (λ found. option_map kind_tree found
        ≡ function_kind function (map kind_tree kinds)) }
{
    by_signature(alloc, function, kinds)
}

fn by_signature(alloc: Global, function: Function, kinds: Kinds) -> Result<Option<Kind>, AllocError>
    ensures { IfOk result (λ found. option_map kind_tree found
        ≡ signature_kind function (map kind_tree kinds)) }
{
    match function {
        Function::Concat => Ok(concatenated(kinds.as_slice())),
        Function::ToTuple => Ok(to_tuple(kinds)),
        Function::ToBag { width } => to_bag(alloc, width, kinds.as_slice()),
        Function::Substring => Ok(of_text_and_ints(kinds.as_slice())),
        Function::StartsWith | Function::EndsWith => {
            Ok(of_texts(kinds.as_slice(), Kind::Boolean))
        }
        Function::IndexOf => Ok(of_texts(kinds.as_slice(), Kind::Int)),
        Function::Count
        | Function::CountStar
        | Function::Sum
        | Function::Min
        | Function::Max
        | Function::Size
        | Function::IsEmpty
        | Function::Tokenize
        | Function::Abs => of_only(alloc, function, kinds.as_slice()),
    }
}

fn of_only(alloc: Global, function: Function, kinds: &[Kind]) -> Result<Option<Kind>, AllocError>
    ensures { IfOk result (λ found. option_map kind_tree found
        ≡ option_and_then (one_kind function) (only (map kind_tree kinds.now))) }
{
    match one(kinds) {
        Some(kind) => of_one(alloc, function, kind),
        None => Ok(None),
    }
}

fn concatenated(kinds: &[Kind]) -> Option<Kind>
    ensures { option_map kind_tree result ≡ concat_kind (map kind_tree kinds.now) }
{
    let [first, second, rest @ ..] = kinds else {
        return None;
    };
    match first {
        Kind::Chararray if same_kind(first, second) && all_same(first, rest) => {
            Some(Kind::Chararray)
        }
        Kind::Bytearray if same_kind(first, second) && all_same(first, rest) => {
            Some(Kind::Bytearray)
        }
        _ => None,
    }
}

fn all_same(first: &Kind, rest: &[Kind]) -> bool
    ensures { result ≡ list_all (kind_eq (kind_tree first.now)) (map kind_tree rest.now) }
{
    for kind in rest {
        if !same_kind(first, kind) {
            return false;
        }
    }
    true
}

fn to_tuple(kinds: Kinds) -> Option<Kind>
    ensures { option_map kind_tree result ≡ function_kind Function.ToTuple (map kind_tree kinds) }
{
    if kinds.is_empty() {
        None
    } else {
        Some(Kind::Tuple(kinds))
    }
}

fn to_bag(alloc: Global, width: Option<u32>, kinds: &[Kind]) -> Result<Option<Kind>, AllocError>
    ensures { IfOk result (λ found. option_map kind_tree found
        ≡ tobag_kind width (map kind_tree kinds.now)) }
{
    let [first, rest @ ..] = kinds else {
        return Ok(None);
    };
    match (width, first) {
        (None, Kind::Tuple(_)) => Ok(None),
        (None, _) => {
            if all_same(first, rest) {
                Ok(Some(single_bag(alloc, copy_kind(alloc, first)?)?))
            } else {
                Ok(None)
            }
        }
        (Some(width), Kind::Tuple(fields)) => {
            if has_width(fields.as_slice(), width) && all_same(first, rest) {
                Ok(Some(Kind::Bag(copy_kinds(alloc, fields.as_slice())?)))
            } else {
                Ok(None)
            }
        }
        (Some(_), _) => Ok(None),
    }
}

// A bag of one field.
fn single_bag(alloc: Global, field: Kind) -> Result<Kind, AllocError>
    ensures { IfOk result (λ bag. kind_tree bag ≡ k_bag (more_kinds (kind_tree field) no_kinds)) }
{
    let mut fields = Seq::new(alloc);
    fields.push(field)?;
    Ok(Kind::Bag(fields))
}

// Whether a tuple has so many fields.
fn has_width(fields: &[Kind], width: u32) -> bool
    ensures { result ≡ (length (kinds_list (kinds_of (map kind_tree fields.now))) == width) }
{
    fields.len() == width as usize
}

// The one argument.
fn one(kinds: &[Kind]) -> Option<&Kind>
    ensures { option_map kind_tree (option_copied result) ≡ only (map kind_tree kinds.now) }
{
    match kinds {
        [kind] => Some(kind),
        _ => None,
    }
}

// The one field of a bag.
fn one_field(fields: &[Kind]) -> Option<&Kind>
    ensures { option_map kind_tree (option_copied result)
        ≡ column (kinds_of (map kind_tree fields.now)) }
{
    one(fields)
}

fn of_one(alloc: Global, function: Function, a: &Kind) -> Result<Option<Kind>, AllocError>
    ensures { IfOk result (λ found. option_map kind_tree found
        ≡ one_kind function (kind_tree a.now)) }
{
    match function {
        Function::Count | Function::CountStar => Ok(counted(a)),
        Function::Sum => Ok(summed(a)),
        Function::Min | Function::Max => Ok(ranked(a)),
        Function::Size => Ok(Some(Kind::Long)),
        Function::IsEmpty => Ok(emptied(a)),
        Function::Tokenize => tokenized(alloc, a),
        Function::Abs => Ok(minus(a)),
        Function::Concat
        | Function::Substring
        | Function::StartsWith
        | Function::EndsWith
        | Function::IndexOf
        | Function::ToTuple
        | Function::ToBag { .. } => Ok(None),
    }
}

fn counted(a: &Kind) -> Option<Kind>
    ensures { option_map kind_tree result ≡ counted_kind (kind_tree a.now) }
{
    match a {
        Kind::Bag(_) => Some(Kind::Long),
        _ => None,
    }
}

fn summed(a: &Kind) -> Option<Kind>
    ensures { option_map kind_tree result ≡ summed_kind (kind_tree a.now) }
{
    match a {
        Kind::Bag(fields) => match one_field(fields.as_slice()) {
            Some(kind) => sum_of(kind),
            None => None,
        },
        _ => None,
    }
}

fn sum_of(a: &Kind) -> Option<Kind>
    ensures { option_map kind_tree result ≡ sum_kind (kind_tree a.now) }
{
    match a {
        Kind::Int => Some(Kind::Long),
        Kind::Long => Some(Kind::Long),
        _ => None,
    }
}

fn ranked(a: &Kind) -> Option<Kind>
    ensures { option_map kind_tree result ≡ chosen_kind (kind_tree a.now) }
{
    match a {
        Kind::Bag(fields) => match one_field(fields.as_slice()) {
            Some(kind) => rank_of(kind),
            None => None,
        },
        _ => None,
    }
}

fn rank_of(a: &Kind) -> Option<Kind>
    ensures { option_map kind_tree result ≡ ranked_kind (kind_tree a.now) }
{
    match a {
        Kind::Int => Some(Kind::Int),
        Kind::Long => Some(Kind::Long),
        Kind::Chararray => Some(Kind::Chararray),
        _ => None,
    }
}

fn emptied(a: &Kind) -> Option<Kind>
    ensures { option_map kind_tree result ≡ emptied_kind (kind_tree a.now) }
{
    match a {
        Kind::Bag(_) => Some(Kind::Boolean),
        Kind::Map(_) => Some(Kind::Boolean),
        _ => None,
    }
}

fn tokenized(alloc: Global, a: &Kind) -> Result<Option<Kind>, AllocError>
    ensures { IfOk result (λ found. option_map kind_tree found ≡ cut_kind (kind_tree a.now)) }
{
    match a {
        Kind::Chararray => Ok(Some(single_bag(alloc, Kind::Chararray)?)),
        _ => Ok(None),
    }
}

fn text(a: &Kind) -> bool
    ensures { result ≡ is_text (kind_tree a.now) }
{
    match a {
        Kind::Chararray => true,
        _ => false,
    }
}

fn int(a: &Kind) -> bool
    ensures { result ≡ is_int (kind_tree a.now) }
{
    match a {
        Kind::Int => true,
        _ => false,
    }
}

fn of_texts(kinds: &[Kind], gives: Kind) -> Option<Kind>
    ensures { option_map kind_tree result ≡ two_texts (kind_tree gives) (map kind_tree kinds.now) }
{
    match kinds {
        [a, b] => {
            if text(a) && text(b) {
                Some(gives)
            } else {
                None
            }
        }
        _ => None,
    }
}

fn of_text_and_ints(kinds: &[Kind]) -> Option<Kind>
    ensures { option_map kind_tree result ≡ text_and_ints (map kind_tree kinds.now) }
{
    match kinds {
        [a, b, c] => {
            if text(a) && int(b) && int(c) {
                Some(Kind::Chararray)
            } else {
                None
            }
        }
        _ => None,
    }
}

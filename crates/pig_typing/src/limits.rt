ghost use Rattle.std.specs.Prelude.{◌≡◌, ◌+◌, IfOk, map, nat_lt};
ghost use Rattle.pig_schema.specs.FieldTrees.{schema_tree};
ghost use Rattle.pig_value.specs.Kinds.{width_of};
ghost use Rattle.pig_value.specs.Trees.{kind_tree, kinds_of};
ghost use Rattle.pig_typing.specs.declared.limits.TheConstants.{MOST_KINDS};
ghost use Rattle.pig_typing.specs.Limits.{any_too_many_fields, is_deep_row, is_too_deep, is_too_wide, is_wide_row, limited, limited_row, row_kind, too_many, too_many_fields};
ghost use Rattle.pig_typing.specs.Results.{Tells};

use crate::columns::column_kinds;
use crate::faults::{CheckKind, TypeFault};
use pig_schema::Schema;
use pig_value::{Kind, kind_depth, kind_width};
use std::alloc::{AllocError, Global};

/// As many fields as a tuple may have.
pub const MOST_FIELDS: usize = 512;
/// As many kinds as may stand in a kind.
pub const MOST_KINDS: usize = 4096;
/// As deep as a kind may nest.
pub const MOST_DEPTH: usize = 64;

/// Whether a kind is within the limits.
///
/// # Errors
///
/// TooWide where a tuple in it has more than [`MOST_FIELDS`] fields, or where there are more than [`MOST_KINDS`] kinds in
/// it; TooDeep where it nests more than [`MOST_DEPTH`] deep.
#[tactic(auto, unfolding(crate::specs::Limits::limited))]
pub fn within_limits(kind: &Kind) -> Result<(), TypeFault>
    ensures { Tells (λ done. kind_tree kind.now) (limited (kind_tree kind.now)) result }
{
    if too_wide(kind) {
        return Err(TypeFault::Refused(CheckKind::TooWide));
    }
    if too_deep(kind) {
        return Err(TypeFault::Refused(CheckKind::TooDeep));
    }
    Ok(())
}

/// Whether the columns of a relation are within the limits.
///
/// # Errors
///
/// TooWide where there are more than [`MOST_FIELDS`] of them, or so many fields in a tuple of theirs, or more than
/// [`MOST_KINDS`] kinds in all; TooDeep where one nests more than [`MOST_DEPTH`] deep.
#[tactic(auto, unfolding(crate::specs::Limits::limited_row))]
pub fn row_within_limits(alloc: Global, columns: &Schema) -> Result<(), TypeFault>
    ensures { Tells (λ done. schema_tree columns.now)
        (limited_row (schema_tree columns.now)) result }
{
    let row = row_kind(alloc, columns)?;
    if wide_row(&row) {
        return Err(TypeFault::Refused(CheckKind::TooWide));
    }
    if deep_row(&row) {
        return Err(TypeFault::Refused(CheckKind::TooDeep));
    }
    Ok(())
}

fn row_kind(alloc: Global, columns: &Schema) -> Result<Kind, AllocError>
    ensures { IfOk result (λ k. kind_tree k ≡ row_kind (schema_tree columns.now)) }
{
    Ok(Kind::Tuple(column_kinds(alloc, columns)?))
}

fn wide_row(row: &Kind) -> bool
    ensures { result ≡ is_wide_row (kind_tree row.now) }
{
    too_many_fields(row) || wide_kinds(row)
}

fn wide_kinds(row: &Kind) -> bool
    ensures { result ≡ nat_lt (MOST_KINDS + 1) (width_of (kind_tree row.now)) }
{
    kind_width(row) > MOST_KINDS + 1
}

fn deep_row(row: &Kind) -> bool
    ensures { result ≡ is_deep_row (kind_tree row.now) }
{
    kind_depth(row) > MOST_DEPTH + 1
}

fn too_wide(kind: &Kind) -> bool
    ensures { result ≡ is_too_wide (kind_tree kind.now) }
{
    too_many_fields(kind) || too_many_kinds(kind)
}

fn too_many_kinds(kind: &Kind) -> bool
    ensures { result ≡ nat_lt MOST_KINDS (width_of (kind_tree kind.now)) }
{
    kind_width(kind) > MOST_KINDS
}

fn too_deep(kind: &Kind) -> bool
    ensures { result ≡ is_too_deep (kind_tree kind.now) }
{
    kind_depth(kind) > MOST_DEPTH
}

fn too_many(kinds: &[Kind]) -> bool
    ensures { result ≡ too_many (kinds_of (map kind_tree kinds.now)) }
{
    kinds.len() > MOST_FIELDS
}

#[cycle(fields)]
fn too_many_fields(kind: &Kind) -> bool
    ensures { result ≡ too_many_fields (kind_tree kind.now) }
{
    match kind {
        Kind::Tuple(kinds) | Kind::Bag(kinds) => {
            too_many(kinds.as_slice()) || any_too_many_fields(kinds.as_slice())
        }
        Kind::Map(of) => too_many_fields(of.get()),
        _ => false,
    }
}

#[cycle(fields)]
fn any_too_many_fields(kinds: &[Kind]) -> bool
    ensures { result ≡ any_too_many_fields (kinds_of (map kind_tree kinds.now)) }
{
    for kind in kinds {
        if too_many_fields(kind) {
            return true;
        }
    }
    false
}

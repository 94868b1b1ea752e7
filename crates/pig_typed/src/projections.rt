ghost use Rattle.std.specs.Prelude.{◌≡◌, map, slice_get, IfOk};
ghost use Rattle.std.specs.Option.{option_and_then, option_map};
ghost use Rattle.pig_value.specs.Trees.{kind_tree, kinds_of, k_bag};
ghost use Rattle.pig_typed.specs.ExprKinds.{is_selection, part_kind, picked_kinds, project_kind};

use pig_value::{Kind, Kinds, Positions, Seq, copy_kind};
use std::alloc::{AllocError, Global};

// The kind of a projection of a tuple or a bag.
pub fn projected(
    alloc: Global,
    of: &Kind,
    fields: &Positions,
    single: bool,
) -> Result<Option<Kind>, AllocError>
    ensures { IfOk result (λ found. option_map kind_tree found
        ≡ project_kind fields.now single (kind_tree of.now)) }
{
    if !selects(fields, single) {
        return Ok(None);
    }
    match of {
        Kind::Tuple(kinds) => of_tuple(alloc, kinds, fields, single),
        Kind::Bag(kinds) => of_bag(alloc, kinds, fields),
        _ => Ok(None),
    }
}

fn of_tuple(
    alloc: Global,
    kinds: &Kinds,
    fields: &Positions,
    single: bool,
) -> Result<Option<Kind>, AllocError>
    ensures { IfOk result (λ found. option_map kind_tree found
        ≡ option_and_then (part_kind single) (picked_kinds fields.now (map kind_tree kinds.now))) }
{
    match picked(alloc, kinds, fields)? {
        Some(picked) => Ok(part(picked, single)),
        None => Ok(None),
    }
}

fn of_bag(alloc: Global, kinds: &Kinds, fields: &Positions) -> Result<Option<Kind>, AllocError>
    ensures { IfOk result (λ found. option_map kind_tree found
        ≡ option_map (λ picked. k_bag (kinds_of picked))
        (picked_kinds fields.now (map kind_tree kinds.now))) }
{
    match picked(alloc, kinds, fields)? {
        Some(picked) => Ok(Some(Kind::Bag(picked))),
        None => Ok(None),
    }
}

fn selects(fields: &Positions, single: bool) -> bool
    ensures { result ≡ is_selection fields.now single }
{
    match fields.as_slice() {
        [] => false,
        [_] => true,
        _ => !single,
    }
}

// The kinds at these positions, where each is within the fields.
fn picked(alloc: Global, kinds: &Kinds, fields: &Positions) -> Result<Option<Kinds>, AllocError>
    ensures { IfOk result (λ found. option_map (map kind_tree) found
        ≡ picked_kinds fields.now (map kind_tree kinds.now)) }
{
    let fields = fields.as_slice();
    let mut made = Vec::with_capacity(alloc, fields.len())?;
    for field in fields {
        match copy_at(alloc, kinds, *field)? {
            Some(kind) => made.push(kind)?,
            None => return Ok(None),
        }
    }
    Ok(Some(Seq::from_vec(made)))
}

fn copy_at(alloc: Global, kinds: &Kinds, field: u32) -> Result<Option<Kind>, AllocError>
    ensures { IfOk result (λ found. option_map kind_tree found
        ≡ slice_get (map kind_tree kinds.now) field) }
{
    match kinds.get(field as usize) {
        Some(kind) => Ok(Some(copy_kind(alloc, kind)?)),
        None => Ok(None),
    }
}

// Of a tuple the one kind, or the tuple of the kinds.
fn part(picked: Kinds, single: bool) -> Option<Kind>
    ensures { option_map kind_tree result ≡ part_kind single (map kind_tree picked) }
{
    if single {
        first(picked)
    } else {
        Some(Kind::Tuple(picked))
    }
}

fn first(kinds: Kinds) -> Option<Kind>
    ensures { option_map kind_tree result ≡ slice_get (map kind_tree kinds) 0 }
{
    kinds.into_vec().into_iter().next()
}

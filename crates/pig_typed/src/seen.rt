ghost use Rattle.std.specs.Prelude.{◌≡◌, map, slice_get, IfOk};
ghost use Rattle.std.specs.Option.{option_map};
ghost use Rattle.pig_value.specs.Trees.{kind_tree};
ghost use Rattle.pig_typed.specs.Seen.{seen_kind};

use pig_value::{Kind, Kinds, copy_kind};
use std::alloc::{AllocError, Global};

// A kind that stands in the row or the expression, or one that was made.
#[derive(Drop)]
pub enum SeenKind<'a> {
    Lent(&'a Kind),
    Made(Kind),
}

// The kinds of a row's fields and of a block's steps so far.
#[derive(Clone, Copy, Drop)]
pub struct Scope<'a> {
    pub row: &'a Kinds,
    pub locals: &'a Kinds,
}

// The kind to look at.
pub fn kind<'b, 'a>(seen: &'b SeenKind<'a>) -> &'b Kind
    ensures { kind_tree result.now ≡ seen_kind seen.now }
{
    match seen {
        SeenKind::Lent(kind) => *kind,
        SeenKind::Made(kind) => kind,
    }
}

// The kind with memory of its own.
pub fn owned(alloc: Global, seen: SeenKind) -> Result<Kind, AllocError>
    ensures { IfOk result (λ kind. kind_tree kind ≡ seen_kind seen.entry) }
{
    match seen {
        SeenKind::Lent(kind) => copy_kind(alloc, kind),
        SeenKind::Made(kind) => Ok(kind),
    }
}

// The kind at a position.
pub fn kind_at<'a>(kinds: &'a Kinds, position: u32) -> Option<SeenKind<'a>>
    ensures { option_map seen_kind result ≡ slice_get (map kind_tree kinds.now) position }
{
    match kinds.get(position as usize) {
        Some(kind) => Some(SeenKind::Lent(kind)),
        None => None,
    }
}

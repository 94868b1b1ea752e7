ghost use Rattle.std.specs.Prelude.{◌≡◌, List, IfOk};
ghost use Rattle.std.specs.List.Sorted.{IsPermutation};
ghost use Rattle.pig_value.specs.Trees.{Tree, row_tree, tree};
ghost use Rattle.pig_algebra.specs.Parts.{Parts, Way, merged_by, rows_in};

use pig_value::{Tuple, Value};
use std::alloc::{AllocError, Global};

/// A function of the rows of a bag that is made of parts: each row gives one, and parts are merged.
pub trait Algebraic {
    /// What is kept of rows that were folded.
    type Part: Drop;

    /// A part as a value.
    ghost seen: { Self.Part → Tree };

    /// The part of no row, of one row, and of the rows of two parts.
    ghost parts: { Parts };

    /// Which values are parts.
    ghost is_part: { Tree → Type 0 };

    /// Which two parts may be merged.
    ghost go_together: { Tree → Tree → Type 0 };

    /// Which rows may stand in one list.
    ghost are_rows: { List (List Tree) → Type 0 };

    /// What the function gives of rows.
    ghost value: { List (List Tree) → Tree };

    /// The part of one row.
    fn initial(&self, alloc: Global, row: &Tuple) -> Result<Self::Part, AllocError>
        ensures { IfOk result (λ part. seen part ≡ parts.initial (row_tree row.now)) };

    /// The part of the rows of both. A refusal gives up both.
    fn merge(&self, alloc: Global, a: Self::Part, b: Self::Part) -> Result<Self::Part, AllocError>
        ensures { IfOk result (λ part. seen part ≡ parts.merge (seen a) (seen b)) };

    /// The function's value.
    fn finish(&self, alloc: Global, part: Self::Part) -> Result<Value, AllocError>
        ensures { IfOk result (λ v. tree v ≡ seen part) };

    ghost unit_part: { is_part parts.unit };

    ghost initial_part: { (row : List Tree) → is_part (parts.initial row) };

    ghost merged_part: { (a b : Tree) → is_part a → is_part b → go_together a b → is_part (parts.merge a b) };

    ghost unit: { (a : Tree) → is_part a → parts.merge parts.unit a ≡ a };

    ghost commutes: { (a b : Tree) → is_part a → is_part b → go_together a b → parts.merge a b ≡ parts.merge b a };

    ghost associates: { (a b c : Tree) → is_part a → is_part b → is_part c → parts.merge a (parts.merge b c) ≡ parts.merge (parts.merge a b) c };

    ghost any_way: { (way : Way) (rows : List (List Tree)) → IsPermutation (rows_in way) rows → are_rows rows → merged_by parts way ≡ value rows };
}

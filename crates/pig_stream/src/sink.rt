ghost use Rattle.std.specs.Prelude.{◌≡◌, ◌++◌, [], List, OnOk, IsTrue};
ghost use Rattle.pig_value.specs.Trees.{Tree, rows_tree};
ghost use Rattle.pig_value.specs.Valid.{AreRows};

use pig_value::Tuple;
use std::alloc::{AllocError, Global};

/// Something that takes rows, some at a time.
pub trait Sink {
    /// What it may have become once it has taken these rows.
    ghost after: { Self → List (List Tree) → Self → Type 0 };

    /// Takes rows of values behind those that it has.
    fn take(&mut self, alloc: Global, rows: &[Tuple]) -> Result<(), AllocError>
        requires { AreRows (rows_tree rows.now) }
        ensures { OnOk result (after self.old (rows_tree rows.now) self.new) };

    /// Whether further rows change nothing.
    fn has_enough(&self) -> bool
        ensures { IsTrue result → (rows : List (List Tree)) → after self.now rows self.now };

    ghost nothing: { (a : Self) → after a [] a };

    ghost onwards: { (a b c : Self) (xs ys : List (List Tree))
        → after a xs b → after b ys c → after a (xs ++ ys) c };
}

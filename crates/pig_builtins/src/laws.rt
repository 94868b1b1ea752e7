ghost use Rattle.std.specs.Prelude.{◌≡◌, ◌++◌, List, Some};
ghost use Rattle.std.specs.List.Sorted.{IsPermutation};
ghost use Rattle.pig_value.specs.FunctionKinds.{function_kind};
ghost use Rattle.pig_value.specs.Functions.{apply_tree, column_found};
ghost use Rattle.pig_value.specs.Kinds.{IsOf, IsRowOf};
ghost use Rattle.pig_value.specs.Texts.{IsLineFree, IsLineFreeRow};
ghost use Rattle.pig_value.specs.Trees.{KindTree, Tree};
ghost use Rattle.pig_value.specs.Valid.{IsRow, IsValue};
ghost use Rattle.pig_value.specs.declared.functions.Function.{Function};
ghost use Rattle.pig_builtins.specs.Folds.{merge_found};

/// A function gives a value of its kind of arguments of the kinds that it takes, a value of values, and a
/// line-free one of line-free ones.
pub fn function_laws()
    ensures kinds { (function : Function) (args : List Tree)
        (kinds : List KindTree) (kind : KindTree)
        → IsRowOf args kinds → function_kind function kinds ≡ Some kind
        → IsOf (apply_tree function args) kind }
    ensures values { (function : Function) (args : List Tree)
        → IsRow args → IsValue (apply_tree function args) }
    ensures line_free { (function : Function) (args : List Tree)
        → IsRow args → IsLineFreeRow args → IsLineFree (apply_tree function args) }
{}

/// An algebraic function finds the same in a column in whatever order it is taken, and what it finds in the
/// parts of a column tells what it finds in the whole.
pub fn column_laws()
    ensures any_order { (function : Function) (us vs : List Tree)
        → IsPermutation us vs → column_found function us ≡ column_found function vs }
    ensures merged { (function : Function) (us vs : List Tree)
        → column_found function (us ++ vs)
        ≡ merge_found function (column_found function us) (column_found function vs) }
{}

ghost use Rattle.std.specs.Prelude.{◌≡◌, List, Some};
ghost use Rattle.pig_value.specs.Kinds.{AreRowsOf, IsOf, IsRowOf};
ghost use Rattle.pig_value.specs.Texts.{AreLineFreeRows, IsLineFree, IsLineFreeRow};
ghost use Rattle.pig_value.specs.Trees.{KindTree, Tree};
ghost use Rattle.pig_value.specs.Valid.{AreRows, IsRow, IsValue};
ghost use Rattle.pig_typed.specs.BlockKinds.{row_kinds};
ghost use Rattle.pig_typed.specs.Blocks.{foreach_rows};
ghost use Rattle.pig_typed.specs.Evaluation.{ev};
ghost use Rattle.pig_typed.specs.ExprKinds.{expr_kind};
ghost use Rattle.pig_typed.specs.Literals.{BlockLiteralsAre, LiteralsAre};
ghost use Rattle.pig_typed.specs.Premises.{IsLineFreeValue};
ghost use Rattle.pig_typed.specs.Typed.{Typed, TypedBlock};

/// What has a kind is never evaluated at a wrong one: on a row and locals of the kinds that it was typed for,
/// an expression gives a value of its kind, and a block rows of its kinds.
pub fn evaluation_keeps_kinds()
    ensures expression { (e : Typed) (row locals : List Tree) (kinds more : List KindTree)
        (k : KindTree)
        → IsRowOf row kinds → IsRowOf locals more → expr_kind e kinds more ≡ Some k
        → IsOf (ev e row locals) k }
    ensures block { (block : TypedBlock) (row : List Tree) (kinds made : List KindTree)
        → IsRowOf row kinds → row_kinds block kinds ≡ Some made
        → AreRowsOf (foreach_rows block row) made }
{}

/// Of values an expression gives a value, and a block rows of values: bags are sorted, keys of maps ascend and
/// differ, numbers are in range and texts are UTF-8.
pub fn evaluation_keeps_values()
    ensures expression { (e : Typed) (row locals : List Tree)
        → LiteralsAre IsValue e → IsRow row → IsRow locals → IsValue (ev e row locals) }
    ensures block { (block : TypedBlock) (row : List Tree)
        → BlockLiteralsAre IsValue block → IsRow row → AreRows (foreach_rows block row) }
{}

/// Of values and literals without an LF an expression gives a value without one, and a block rows of such
/// values.
pub fn evaluation_keeps_lines()
    ensures expression { (e : Typed) (row locals : List Tree)
        → LiteralsAre IsLineFreeValue e → IsRow row → IsLineFreeRow row → IsRow locals
        → IsLineFreeRow locals
        → IsLineFree (ev e row locals) }
    ensures block { (block : TypedBlock) (row : List Tree)
        → BlockLiteralsAre IsLineFreeValue block → IsRow row → IsLineFreeRow row
        → AreLineFreeRows (foreach_rows block row) }
{}

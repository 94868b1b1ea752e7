ghost use Rattle.std.specs.Prelude.{◌≡◌, ◌≤◌, ◌⊎◌, List, Some, length, map, true};
ghost use Rattle.std.specs.List.{All};
ghost use Rattle.pig_value.specs.Texts.{IsLineFree};
ghost use Rattle.pig_schema.specs.FieldTrees.{FieldTree, tree_kind};
ghost use Rattle.pig_syntax.specs.Formed.{ItemFormed, StepFormed};
ghost use Rattle.pig_syntax.specs.declared.trees.Item.{Item};
ghost use Rattle.pig_syntax.specs.declared.trees.OrderKeys.{OrderKeys};
ghost use Rattle.pig_syntax.specs.declared.trees.Step.{Step};
ghost use Rattle.pig_typed.specs.BlockKinds.{are_keys, row_kinds};
ghost use Rattle.pig_typed.specs.Literals.{BlockLiteralsAre};
ghost use Rattle.pig_typed.specs.declared.blocks.SortKey.{SortKey};
ghost use Rattle.pig_typing.specs.declared.faults.CheckKind.{CheckKind};
ghost use Rattle.pig_typing.specs.Columns.{AreColumns};
ghost use Rattle.pig_blocks.specs.Foreach.{Foreach, ForeachFaults, TypesForeach, block_in, columns_of};
ghost use Rattle.pig_blocks.specs.SortKeys.{SortsBy, SortsByNot};

/// Over the columns of any row a FOREACH has one typing, or the condition of some kind of refusal holds of it, and
/// never both.
pub fn foreach_has_one_typing()
    ensures one { (columns : List FieldTree) (steps : List Step) (items : List Item) (f g : Foreach)
        → TypesForeach columns steps items f → TypesForeach columns steps items g → f ≡ g }
    ensures some { (columns : List FieldTree) (steps : List Step) (items : List Item)
        → ((f : Foreach) × TypesForeach columns steps items f)
        ⊎ ((kind : CheckKind) × ForeachFaults columns steps items kind) }
    ensures never_both { (columns : List FieldTree) (steps : List Step) (items : List Item)
        (f : Foreach) (kind : CheckKind) → TypesForeach columns steps items f
        → ForeachFaults columns steps items kind → ⊥ }
{}

/// Of an ORDER there is likewise one list of keys, or the condition of some kind of refusal holds, and never both.
pub fn orders_have_one_typing()
    ensures one { (columns : List FieldTree) (order : OrderKeys) (ks ls : List SortKey)
        → SortsBy columns order ks → SortsBy columns order ls → ks ≡ ls }
    ensures some { (columns : List FieldTree) (order : OrderKeys)
        → ((ks : List SortKey) × SortsBy columns order ks)
        ⊎ ((kind : CheckKind) × SortsByNot columns order kind) }
    ensures never_both { (columns : List FieldTree) (order : OrderKeys) (ks : List SortKey)
        (kind : CheckKind) → SortsBy columns order ks → SortsByNot columns order kind → ⊥ }
{}

/// Rows of these columns may be sorted by the keys of an ORDER, of which there is one at least.
pub fn orders_have_keys()
    ensures keys { (columns : List FieldTree) (order : OrderKeys) (ks : List SortKey)
        → SortsBy columns order ks → are_keys (map tree_kind columns) ks ≡ true }
    ensures some { (columns : List FieldTree) (order : OrderKeys) (ks : List SortKey)
        → SortsBy columns order ks → 1 ≤ length ks }
{}

/// A typed block makes rows of the kinds of the columns that it has, of rows of the kinds that it was typed for, and
/// inside each column is what is of its kind.
pub fn foreach_has_its_kinds()
    ensures kinds { (columns : List FieldTree) (steps : List Step) (items : List Item) (f : Foreach)
        → AreColumns columns → TypesForeach columns steps items f
        → row_kinds (block_in f) (map tree_kind columns) ≡ Some (map tree_kind (columns_of f)) }
    ensures columns { (columns : List FieldTree) (steps : List Step) (items : List Item)
        (f : Foreach) → AreColumns columns → TypesForeach columns steps items f
        → AreColumns (columns_of f) }
{}

/// A typed block writes no line end, where none stands in the texts of its steps and items.
pub fn foreach_writes_no_line_end()
    ensures { (columns : List FieldTree) (steps : List Step) (items : List Item) (f : Foreach)
        → All StepFormed steps → All ItemFormed items → TypesForeach columns steps items f
        → BlockLiteralsAre IsLineFree (block_in f) }
{}

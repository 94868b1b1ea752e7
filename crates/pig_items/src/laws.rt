ghost use Rattle.std.specs.Prelude.{◌≡◌, ◌⊎◌, List, Some, map};
ghost use Rattle.std.specs.List.{All, AllByRecursion};
ghost use Rattle.pig_value.specs.Texts.{IsLineFree};
ghost use Rattle.pig_schema.specs.FieldTrees.{tree_kind};
ghost use Rattle.pig_syntax.specs.declared.trees.Item.{Item};
ghost use Rattle.pig_syntax.specs.Formed.{ItemFormed};
ghost use Rattle.pig_typed.specs.BlockKinds.{items_kinds};
ghost use Rattle.pig_typed.specs.Literals.{LiteralsAre};
ghost use Rattle.pig_typing.specs.declared.faults.CheckKind.{CheckKind};
ghost use Rattle.pig_typing.specs.Columns.{AreColumns, IsPlace, Place, locals_of, place_row};
ghost use Rattle.pig_items.specs.Items.{AllGenerate, AllGenerateNot, Generated};

/// Of the items of a GENERATE there is one typing, or the condition of some kind of refusal holds, and never both.
pub fn items_have_one_typing()
    ensures one { (s : Place) (is : List Item) (g h : Generated) → AllGenerate s is g
        → AllGenerate s is h → g ≡ h }
    ensures some { (s : Place) (is : List Item)
        → ((g : Generated) × AllGenerate s is g) ⊎ ((kind : CheckKind) × AllGenerateNot s is kind) }
    ensures never_both { (s : Place) (is : List Item) (g : Generated) (kind : CheckKind)
        → AllGenerate s is g → AllGenerateNot s is kind → ⊥ }
{}

/// The items of a GENERATE have the kinds of the columns that they give, and inside each column is what is of its kind.
pub fn items_have_their_kinds()
    ensures kinds { (s : Place) (is : List Item) (g : Generated) → IsPlace s → AllGenerate s is g
        → items_kinds g.items (place_row s) (locals_of s) ≡ Some (map tree_kind g.columns) }
    ensures columns { (s : Place) (is : List Item) (g : Generated) → IsPlace s → AllGenerate s is g
        → AreColumns g.columns }
{}

/// Typed items write no line end, where none stands in the texts of their forms.
pub fn items_write_no_line_end()
    ensures { (s : Place) (is : List Item) (g : Generated) → All ItemFormed is → AllGenerate s is g
        → AllByRecursion (λ i. LiteralsAre IsLineFree i.value) g.items }
{}

ghost use Rattle.std.specs.Prelude.{◌≡◌, ◌∷◌, ◌⊎◌, ℕ, Bool, List, Option, Some, false, length, map, IfSome};
ghost use Rattle.std.specs.List.{All, AllByRecursion};
ghost use Rattle.pig_value.specs.Trees.{KindTree};
ghost use Rattle.pig_value.specs.declared.operators.Side.{Side};
ghost use Rattle.pig_schema.specs.FieldTrees.{tree_kind};
ghost use Rattle.pig_syntax.specs.Formed.{GroupInputFormed, JoinInputFormed};
ghost use Rattle.pig_syntax.specs.declared.trees.GroupInput.{GroupInput};
ghost use Rattle.pig_syntax.specs.declared.trees.JoinInput.{JoinInput};
ghost use Rattle.pig_plan.specs.NodeKinds.{Before, node_gives};
ghost use Rattle.pig_plan.specs.Plans.{p_union};
ghost use Rattle.pig_plan.specs.Valid.{op_writes_lf};
ghost use Rattle.pig_plan.specs.Written.{block_writes_lf};
ghost use Rattle.pig_typing.specs.declared.faults.CheckKind.{CheckKind};
ghost use Rattle.pig_typing.specs.Columns.{AreColumns};
ghost use Rattle.pig_relations.specs.Aliases.{Aliases, IsTable};
ghost use Rattle.pig_relations.specs.Keyed.{KeyedForm, group_form, join_form};
ghost use Rattle.pig_relations.specs.Operators.{Groups, GroupsAll, GroupsAllNot, GroupsNot, Joins, JoinsNot, TypedOp};
ghost use Rattle.pig_relations.specs.Together.{AllFit, AllRowsFit, all_together};
ghost use Rattle.pig_relations.specs.Unions.{GivesRows, TypedUnion, Unions, UnionsNot};

/// The kinds that inputs have together are the least that those of each input fit, where an int fits a long and any kind
/// itself; and there are such where there are any that all fit.
pub fn kinds_together_are_the_least()
    ensures fit { (rows : List (List KindTree)) (js : List KindTree)
        → all_together rows ≡ Some js → AllRowsFit rows js }
    ensures least { (ks : List KindTree) (others : List (List KindTree)) (ms : List KindTree)
        → AllRowsFit (ks ∷ others) ms
        → (js : List KindTree) × (all_together (ks ∷ others) ≡ Some js) × AllFit js ms }
{}

/// Over the aliases so far a GROUP or COGROUP has one typing, or the condition of some kind of refusal holds of it, and
/// never both.
pub fn groups_have_one_typing()
    ensures one { (aliases : Aliases) (is : List KeyedForm) (hint : Option (List ℕ))
        (t u : TypedOp) → Groups aliases is hint t → Groups aliases is hint u → t ≡ u }
    ensures some { (aliases : Aliases) (is : List KeyedForm) (hint : Option (List ℕ))
        → ((t : TypedOp) × Groups aliases is hint t)
        ⊎ ((kind : CheckKind) × GroupsNot aliases is hint kind) }
    ensures never_both { (aliases : Aliases) (is : List KeyedForm) (hint : Option (List ℕ))
        (t : TypedOp) (kind : CheckKind) → Groups aliases is hint t
        → GroupsNot aliases is hint kind → ⊥ }
{}

/// So it is of a GROUP ALL.
pub fn groups_of_all_have_one_typing()
    ensures one { (aliases : Aliases) (alias : List ℕ) (hint : Option (List ℕ)) (t u : TypedOp)
        → GroupsAll aliases alias hint t → GroupsAll aliases alias hint u → t ≡ u }
    ensures some { (aliases : Aliases) (alias : List ℕ) (hint : Option (List ℕ))
        → ((t : TypedOp) × GroupsAll aliases alias hint t)
        ⊎ ((kind : CheckKind) × GroupsAllNot aliases alias hint kind) }
    ensures never_both { (aliases : Aliases) (alias : List ℕ) (hint : Option (List ℕ))
        (t : TypedOp) (kind : CheckKind) → GroupsAll aliases alias hint t
        → GroupsAllNot aliases alias hint kind → ⊥ }
{}

/// So it is of a JOIN.
pub fn joins_have_one_typing()
    ensures one { (aliases : Aliases) (is : List KeyedForm) (side : Side)
        (hint : Option (List ℕ)) (t u : TypedOp) → Joins aliases is side hint t
        → Joins aliases is side hint u → t ≡ u }
    ensures some { (aliases : Aliases) (is : List KeyedForm) (side : Side)
        (hint : Option (List ℕ)) → ((t : TypedOp) × Joins aliases is side hint t)
        ⊎ ((kind : CheckKind) × JoinsNot aliases is side hint kind) }
    ensures never_both { (aliases : Aliases) (is : List KeyedForm) (side : Side)
        (hint : Option (List ℕ)) (t : TypedOp) (kind : CheckKind)
        → Joins aliases is side hint t → JoinsNot aliases is side hint kind → ⊥ }
{}

/// So it is of a UNION.
pub fn unions_have_one_typing()
    ensures one { (aliases : Aliases) (onschema : Bool) (names : List (List ℕ))
        (u v : TypedUnion) → Unions aliases onschema names u → Unions aliases onschema names v
        → u ≡ v }
    ensures some { (aliases : Aliases) (onschema : Bool) (names : List (List ℕ))
        → ((u : TypedUnion) × Unions aliases onschema names u)
        ⊎ ((kind : CheckKind) × UnionsNot aliases onschema names kind) }
    ensures never_both { (aliases : Aliases) (onschema : Bool) (names : List (List ℕ))
        (u : TypedUnion) (kind : CheckKind) → Unions aliases onschema names u
        → UnionsNot aliases onschema names kind → ⊥ }
{}

/// Over nodes that give the rows of the aliases' relations, an operator gives rows of the kinds of its columns, each of
/// which has inside it what is of its kind.
pub fn operators_give_their_columns()
    ensures group { (before : Before) (aliases : Aliases) (is : List KeyedForm)
        (hint : Option (List ℕ)) (t : TypedOp) → IsTable before aliases → Groups aliases is hint t
        → (node_gives before t.op ≡ Some (Some (map tree_kind t.columns))) × AreColumns t.columns }
    ensures group_all { (before : Before) (aliases : Aliases) (alias : List ℕ)
        (hint : Option (List ℕ)) (t : TypedOp) → IsTable before aliases
        → GroupsAll aliases alias hint t
        → (node_gives before t.op ≡ Some (Some (map tree_kind t.columns))) × AreColumns t.columns }
    ensures join { (before : Before) (aliases : Aliases) (inputs : List JoinInput) (side : Side)
        (hint : Option (List ℕ)) (t : TypedOp) → IsTable before aliases
        → Joins aliases (map join_form inputs) side hint t
        → (node_gives before t.op ≡ Some (Some (map tree_kind t.columns))) × AreColumns t.columns }
{}

/// Each input of a UNION gives rows of the kinds of its columns, or the FOREACH before it does; and of such rows the
/// UNION gives rows of these kinds.
pub fn unions_give_their_columns()
    ensures inputs { (before : Before) (aliases : Aliases) (onschema : Bool)
        (names : List (List ℕ)) (u : TypedUnion) → IsTable before aliases
        → Unions aliases onschema names u
        → AllByRecursion (GivesRows before (map tree_kind u.columns)) u.inputs }
    ensures columns { (before : Before) (aliases : Aliases) (onschema : Bool)
        (names : List (List ℕ)) (u : TypedUnion) → IsTable before aliases
        → Unions aliases onschema names u → AreColumns u.columns }
    ensures node { (aliases : Aliases) (onschema : Bool) (names : List (List ℕ)) (u : TypedUnion)
        → Unions aliases onschema names u → (after : Before) (nodes : List ℕ)
        → length nodes ≡ length u.inputs
        → AllByRecursion (λ n. after n ≡ Some (map tree_kind u.columns)) nodes
        → node_gives after (p_union nodes) ≡ Some (Some (map tree_kind u.columns)) }
{}

/// An operator writes no line end, where none stands in the texts of its keys; the FOREACH before a UNION writes none.
pub fn operators_write_no_line_end()
    ensures group { (aliases : Aliases) (inputs : List GroupInput) (hint : Option (List ℕ))
        (t : TypedOp) → All GroupInputFormed inputs → Groups aliases (map group_form inputs) hint t
        → op_writes_lf t.op ≡ false }
    ensures group_all { (aliases : Aliases) (alias : List ℕ) (hint : Option (List ℕ))
        (t : TypedOp) → GroupsAll aliases alias hint t → op_writes_lf t.op ≡ false }
    ensures join { (aliases : Aliases) (inputs : List JoinInput) (side : Side)
        (hint : Option (List ℕ)) (t : TypedOp) → All JoinInputFormed inputs
        → Joins aliases (map join_form inputs) side hint t → op_writes_lf t.op ≡ false }
    ensures union { (aliases : Aliases) (onschema : Bool) (names : List (List ℕ))
        (u : TypedUnion) → Unions aliases onschema names u
        → AllByRecursion (λ i. IfSome i.widening (λ block. block_writes_lf block
        ≡ false)) u.inputs }
{}

ghost use Rattle.std.specs.Prelude.{◌≡◌, ◌⊎◌, List, Some};
ghost use Rattle.std.specs.List.{AllByRecursion};
ghost use Rattle.pig_value.specs.Texts.{IsLineFree};
ghost use Rattle.pig_value.specs.Trees.{k_boolean};
ghost use Rattle.pig_schema.specs.FieldTrees.{IsColumn};
ghost use Rattle.pig_syntax.specs.ExprTrees.{ExprForm, ExprForms};
ghost use Rattle.pig_syntax.specs.Formed.{ExprFormed, ExprsFormed};
ghost use Rattle.pig_typed.specs.ExprKinds.{expr_kind};
ghost use Rattle.pig_typed.specs.Literals.{LiteralsAre};
ghost use Rattle.pig_typed.specs.Typed.{Typed};
ghost use Rattle.pig_typing.specs.declared.faults.CheckKind.{CheckKind};
ghost use Rattle.pig_typing.specs.Columns.{IsPlace, Place, locals_of, place_row};
ghost use Rattle.pig_typing.specs.Conditions.{Conditions, ConditionsNot, Keys, KeysNot};
ghost use Rattle.pig_typing.specs.Faults.{Faults};
ghost use Rattle.pig_typing.specs.Parts.{Typing, typed_column, kind_in, typed_of};
ghost use Rattle.pig_typing.specs.Typing.{Types};

/// Over the columns and nested aliases of any place an expression has one typing, or the condition of some kind of
/// refusal holds of it, and never both.
pub fn expressions_have_one_typing()
    ensures one { (s : Place) (a : ExprForm) (p q : Typing) → Types s a p → Types s a q → p ≡ q }
    ensures some { (s : Place) (a : ExprForm) → ((p : Typing) × Types s a p)
        ⊎ ((kind : CheckKind) × Faults s a kind) }
    ensures never_both { (s : Place) (a : ExprForm) (p : Typing) (kind : CheckKind) → Types s a p
        → Faults s a kind → ⊥ }
{}

/// What is typed has its kind on the kinds of the columns and of the nested aliases, and inside it the columns of
/// that kind, where these have theirs.
pub fn typings_have_their_kinds()
    ensures kind { (s : Place) (a : ExprForm) (p : Typing) → IsPlace s → Types s a p
        → expr_kind (typed_of p) (place_row s) (locals_of s) ≡ Some (kind_in p) }
    ensures inside { (s : Place) (a : ExprForm) (p : Typing) → IsPlace s → Types s a p
        → IsColumn (typed_column p) }
{}

/// What is typed writes no line end, where none stands in the texts of its form.
pub fn typings_write_no_line_end()
    ensures expression { (s : Place) (a : ExprForm) (p : Typing) → ExprFormed a → Types s a p
        → LiteralsAre IsLineFree (typed_of p) }
    ensures condition { (s : Place) (a : ExprForm) (t : Typed) → ExprFormed a → Conditions s a t
        → LiteralsAre IsLineFree t }
    ensures keys { (s : Place) (es : ExprForms) (ps : List Typing) → ExprsFormed es → Keys s es ps
        → AllByRecursion (λ p. LiteralsAre IsLineFree (typed_of p)) ps }
{}

/// A condition is boolean on the kinds of the columns and of the nested aliases.
pub fn conditions_have_their_kind()
    ensures { (s : Place) (a : ExprForm) (t : Typed) → IsPlace s → Conditions s a t
        → expr_kind t (place_row s) (locals_of s) ≡ Some k_boolean }
{}

/// Each key has its kind, and inside it the columns of that kind.
pub fn keys_have_their_kinds()
    ensures kind { (s : Place) (es : ExprForms) (ps : List Typing) → IsPlace s → Keys s es ps
        → AllByRecursion (λ p. expr_kind (typed_of p) (place_row s) (locals_of s)
        ≡ Some (kind_in p)) ps }
    ensures inside { (s : Place) (es : ExprForms) (ps : List Typing) → IsPlace s → Keys s es ps
        → AllByRecursion (λ p. IsColumn (typed_column p)) ps }
{}

/// Of a condition there is likewise one typing, or the condition of some kind of refusal holds, and never both.
pub fn conditions_have_one_typing()
    ensures one { (s : Place) (a : ExprForm) (t u : Typed) → Conditions s a t → Conditions s a u → t
        ≡ u }
    ensures some { (s : Place) (a : ExprForm)
        → ((t : Typed) × Conditions s a t) ⊎ ((kind : CheckKind) × ConditionsNot s a kind) }
    ensures never_both { (s : Place) (a : ExprForm) (t : Typed) (kind : CheckKind)
        → Conditions s a t → ConditionsNot s a kind → ⊥ }
{}

/// Of the keys of an input there is likewise one typing, or the condition of some kind of refusal holds, and never both.
pub fn keys_have_one_typing()
    ensures one { (s : Place) (es : ExprForms) (ps qs : List Typing) → Keys s es ps → Keys s es qs
        → ps ≡ qs }
    ensures some { (s : Place) (es : ExprForms)
        → ((ps : List Typing) × Keys s es ps) ⊎ ((kind : CheckKind) × KeysNot s es kind) }
    ensures never_both { (s : Place) (es : ExprForms) (ps : List Typing) (kind : CheckKind)
        → Keys s es ps → KeysNot s es kind → ⊥ }
{}

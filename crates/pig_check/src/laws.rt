ghost use Rattle.std.specs.Prelude.{◌≡◌, ◌⊎◌, ℕ, List};
ghost use Rattle.pig_syntax.specs.declared.trees.Stmt.{Stmt};
ghost use Rattle.pig_plan.specs.Plans.{Plan};
ghost use Rattle.pig_typing.specs.declared.faults.CheckKind.{CheckKind};
ghost use Rattle.pig_check.specs.Scripts.{IsFirstUntyped, IsPlanOf, PlansStandInOrder};
ghost use Rattle.pig_check.specs.States.{NoStoresCollide, StoresAreApart};

/// A script has one plan, or one first statement without a typing, of which the condition of some kind of refusal
/// holds, and never both.
pub fn a_script_has_one_plan()
    ensures one { (ss : List Stmt) (p q : Plan) → IsPlanOf ss p → IsPlanOf ss q → p ≡ q }
    ensures some { (ss : List Stmt) → ((p : Plan) × IsPlanOf ss p)
        ⊎ ((n : ℕ) × (kind : CheckKind) × IsFirstUntyped ss n kind) }
    ensures never_both { (ss : List Stmt) (p : Plan) (n : ℕ) (kind : CheckKind)
        → IsPlanOf ss p → IsFirstUntyped ss n kind → ⊥ }
    ensures one_statement { (ss : List Stmt) (m n : ℕ) (j k : CheckKind)
        → IsFirstUntyped ss m j → IsFirstUntyped ss n k → m ≡ n }
{}

/// The STOREs of a script's plan are apart: no two have one path, and none has a path within another's.
pub fn stores_are_apart()
    ensures apart { (ss : List Stmt) (p : Plan) → IsPlanOf ss p → StoresAreApart p }
    ensures none_collide { (ss : List Stmt) (p : Plan) → IsPlanOf ss p → NoStoresCollide p }
{}

/// The nodes of a script's plan stand in the order of its statements.
pub fn plans_stand_in_order()
    ensures { PlansStandInOrder }
{}

ghost use Rattle.std.specs.Prelude.{◌≡◌, ◌↔◌, List, map};
ghost use Rattle.std.specs.List.Sorted.{IsPermutation};
ghost use Rattle.std.specs.Ordering.{ordering_reverse};
ghost use Rattle.std.specs.declared.cmp.Ordering.{Ordering};
ghost use Rattle.std.specs.declared.cmp.Ordering.TheVariants.{Less, Equal};
ghost use Rattle.pig_value.specs.Trees.{KindTree, Tree, v_null, v_bag, tuples_of};
ghost use Rattle.pig_value.specs.Orders.{dirs_cmp, tree_cmp, row_cmp, bag_of};
ghost use Rattle.pig_value.specs.Casts.{CanCast, CastsTo, cast_of};
ghost use Rattle.pig_value.specs.Kinds.{IsOf};
ghost use Rattle.pig_value.specs.declared.operators.Dir.{Dir};
ghost use Rattle.pig_value.specs.Sorts.{Ascends, times};
ghost use Rattle.pig_value.specs.Valid.{AreRows, IsValue};

/// The order of values is total, and what it ranks as equal is the same.
pub fn order_laws()
    ensures either_way { (a b : Tree) → tree_cmp a b ≡ ordering_reverse (tree_cmp b a) }
    ensures transitive { (a b c : Tree) → tree_cmp a b ≡ Less → tree_cmp b c ≡ Less
        → tree_cmp a c ≡ Less }
    ensures equal_is_same { (a b : Tree) → (tree_cmp a b ≡ Equal) ↔ (a ≡ b) }
{}

/// The order of rows is total, and what it ranks as equal is the same.
pub fn row_order_laws()
    ensures either_way { (a b : List Tree) → row_cmp a b ≡ ordering_reverse (row_cmp b a) }
    ensures transitive { (a b c : List Tree) → row_cmp a b ≡ Less → row_cmp b c ≡ Less
        → row_cmp a c ≡ Less }
    ensures equal_is_same { (a b : List Tree) → (row_cmp a b ≡ Equal) ↔ (a ≡ b) }
{}

/// Two lists of rows are equal as bags exactly where their sorted lists are: the rows are the same, in
/// whatever order, and so each row is there as often. Sorting once more changes nothing, and the bag of
/// rows of values is a value.
pub fn bag_laws()
    ensures same_rows { (xs ys : List (List Tree)) → (bag_of xs ≡ bag_of ys) ↔ IsPermutation xs ys }
    ensures as_often { (xs ys : List (List Tree)) → (bag_of xs ≡ bag_of ys)
        ↔ ((row : List Tree) → times row_cmp row xs ≡ times row_cmp row ys) }
    ensures keeps { (xs : List (List Tree)) (row : List Tree)
        → times row_cmp row (bag_of xs) ≡ times row_cmp row xs }
    ensures ascends { (xs : List (List Tree)) → Ascends row_cmp (bag_of xs) }
    ensures once { (xs : List (List Tree)) → bag_of (bag_of xs) ≡ bag_of xs }
    ensures value { (xs : List (List Tree)) → AreRows xs → IsValue (v_bag (tuples_of (bag_of xs))) }
{}

/// The order of rows in directions is total, and what it ranks as equal is the same.
pub fn direction_laws()
    ensures either_way { (ds : List Dir) (a b : List Tree)
        → dirs_cmp ds a b ≡ ordering_reverse (dirs_cmp ds b a) }
    ensures transitive { (ds : List Dir) (a b c : List Tree) → dirs_cmp ds a b ≡ Less
        → dirs_cmp ds b c ≡ Less → dirs_cmp ds a c ≡ Less }
    ensures equal_is_same { (ds : List Dir) (a b : List Tree)
        → (dirs_cmp ds a b ≡ Equal) ↔ (a ≡ b) }
{}

/// A kind casts to another exactly where each of its values may be cast to it, and what may not be cast gives null.
pub fn cast_laws()
    ensures values { (from to : KindTree) (v : Tree) → CastsTo from to → IsOf v from
        → CanCast to v }
    ensures kinds { (from to : KindTree) → ((v : Tree) → IsOf v from → CanCast to v)
        → CastsTo from to }
    ensures refused { (k : KindTree) (v : Tree) → (CanCast k v → ⊥) → cast_of k v ≡ v_null }
{}

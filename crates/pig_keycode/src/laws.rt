ghost use Rattle.std.specs.Prelude.{◌≡◌, ◌++◌, [], List, ℕ};
ghost use Rattle.std.specs.Ordering.{ordering_reverse, ordering_then, nat_cmp};
ghost use Rattle.std.specs.Cmp.Lexicographic.{slice_cmp};
ghost use Rattle.pig_value.specs.Trees.{Tree};
ghost use Rattle.pig_value.specs.Orders.{tree_cmp};
ghost use Rattle.pig_value.specs.Valid.{IsValue};
ghost use Rattle.pig_value.specs.declared.operators.Dir.{Dir};
ghost use Rattle.pig_value.specs.declared.operators.Dir.TheVariants.{Asc, Desc};
ghost use Rattle.pig_keycode.specs.Codes.{code, code_in};
ghost use Rattle.pig_keycode.specs.Codable.{IsCodeOf};
ghost use Rattle.pig_keycode.specs.Keys.{IsKey, key_cmp, key_code};

/// Codes as bytes stand in the order of their values, in reverse for descending ones, and those of keys in the order
/// of keys in directions. The same holds of codes with other bytes behind them, which decide where the values are the
/// same. No code is a proper prefix of another, and a code tells its value.
pub fn code_laws()
    ensures ascending { (a b : Tree) → IsValue a → IsValue b
        → slice_cmp nat_cmp (code_in Asc a) (code_in Asc b) ≡ tree_cmp a b }
    ensures descending { (a b : Tree) → IsValue a → IsValue b
        → slice_cmp nat_cmp (code_in Desc a) (code_in Desc b) ≡ ordering_reverse (tree_cmp a b) }
    ensures ascending_before { (a b : Tree) (s t : List ℕ) → IsValue a → IsValue b
        → slice_cmp nat_cmp (code_in Asc a ++ s) (code_in Asc b ++ t)
        ≡ ordering_then (tree_cmp a b) (slice_cmp nat_cmp s t) }
    ensures descending_before { (a b : Tree) (s t : List ℕ) → IsValue a → IsValue b
        → slice_cmp nat_cmp (code_in Desc a ++ s) (code_in Desc b ++ t)
        ≡ ordering_then (ordering_reverse (tree_cmp a b)) (slice_cmp nat_cmp s t) }
    ensures keys_before { (ds : List Dir) (a b : Tree) (s t : List ℕ) → IsKey ds a → IsKey ds b
        → slice_cmp nat_cmp (key_code ds a ++ s) (key_code ds b ++ t)
        ≡ ordering_then (key_cmp ds a b) (slice_cmp nat_cmp s t) }
    ensures no_prefix { (a b : Tree) (more : List ℕ) → IsValue a → IsValue b
        → code a ++ more ≡ code b → more ≡ [] }
    ensures one_value { (a b : Tree) → IsValue a → IsValue b → code a ≡ code b → a ≡ b }
    ensures one_key { (ds : List Dir) (a b : Tree) → IsKey ds a → IsKey ds b
        → key_code ds a ≡ key_code ds b → a ≡ b }
    ensures round_trip { (bytes : List ℕ) (a b : Tree) → IsCodeOf bytes a → IsCodeOf bytes b
        → a ≡ b }
{}

ghost use Rattle.std.specs.Prelude.{◌≡◌, [], map, IfSome};
ghost use Rattle.pig_value.specs.Trees.{row_tree, tree};
ghost use Rattle.pig_typed.specs.Evaluation.{ev};
ghost use Rattle.pig_typed.specs.Typed.{typed};
ghost use Rattle.pig_replicated.specs.Holding.{key_in};

use pig_typed::TExpr;
use pig_value::{Tuple, Value, field_at};

// The key of a row where it stands, which it does where the one key expression is a field that the row has.
pub fn standing_key<'r>(keys: &[TExpr], row: &'r Tuple) -> Option<&'r Value>
    ensures { IfSome result (λ key. tree key.now ≡ key_in (map typed keys.now) (row_tree row.now)) }
{
    if let [key] = keys {
        return standing_field(key, row);
    }
    None
}

fn standing_field<'r>(key: &TExpr, row: &'r Tuple) -> Option<&'r Value>
    ensures { IfSome result (λ v. tree v.now ≡ ev (typed key.now) (row_tree row.now) []) }
{
    match key {
        TExpr::Field(place) => field_at(row, *place),
        _ => None,
    }
}

ghost use Rattle.std.specs.Prelude.{◌≡◌, map};
ghost use Rattle.pig_value.specs.Trees.{fields_of, tree};
ghost use Rattle.pig_plan.specs.ByKey.{holds_null, one_holds_null};

use pig_value::Value;

// Whether a key is null, or a tuple that holds a null at any depth.
#[cycle(has_null)]
pub fn has_null(key: &Value) -> bool
    ensures { result ≡ holds_null (tree key.now) }
{
    match key {
        Value::Null => true,
        Value::Tuple(fields) => one_has_null(fields.as_slice()),
        _ => false,
    }
}

#[cycle(has_null)]
fn one_has_null(values: &[Value]) -> bool
    ensures { result ≡ one_holds_null (fields_of (map tree values.now)) }
{
    for value in values {
        if has_null(value) {
            return true;
        }
    }
    false
}

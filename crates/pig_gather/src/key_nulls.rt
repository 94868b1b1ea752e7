ghost use Rattle.std.specs.Prelude.{◌≡◌, ◌<◌, [], length, IfOk};
ghost use Rattle.pig_value.specs.Trees.{Tree};
ghost use Rattle.pig_keycode.specs.Codable.{IsCodeOf};
ghost use Rattle.pig_plan.specs.ByKey.{holds_null};
ghost use Rattle.pig_operators.specs.Groups.{first_key};

use pig_keycode::decode;
use pig_operators::has_null;
use pig_runs::Merged;
use std::alloc::{AllocError, Global};

// Whether the key of an entry is null, or a tuple that holds a null at any depth.
pub(crate) fn key_has_null(alloc: Global, entries: &Merged, at: usize) -> Result<bool, AllocError>
    requires within { at < length entries.now.entries }
    requires ascending { entries.now.dirs ≡ [] }
    ensures { IfOk result (λ found. found ≡ holds_null (first_key entries.now at)) }
{
    code_has_null(alloc, entries.lend(at).key)
}

// The same of the code of a key. Only a tuple is decoded.
fn code_has_null(alloc: Global, code: &[u8]) -> Result<bool, AllocError>
    ensures { (key : Tree) → IsCodeOf code.now key
        → IfOk result (λ found. found ≡ holds_null key) }
{
    match code {
        [0, ..] => Ok(true),
        [6, ..] => tuple_has_null(alloc, code),
        _ => Ok(false),
    }
}

fn tuple_has_null(alloc: Global, code: &[u8]) -> Result<bool, AllocError>
    ensures { (key : Tree) → IsCodeOf code.now key
        → IfOk result (λ found. found ≡ holds_null key) }
{
    match decode(alloc, code)? {
        Some(key) => {
            let found = has_null(&key);
            drop(key);
            Ok(found)
        }
        None => Ok(false),
    }
}

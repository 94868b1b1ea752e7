ghost use Rattle.std.specs.Prelude.{◌≡◌, ◌<◌, [], ◌∷◌, ◌++◌, drop, take, length, slice_get, Some, List, OnOk, OnErr, IfOk};
ghost use Rattle.pig_value.specs.Trees.{Tree, row_tree};
ghost use Rattle.pig_keycode.specs.Codable.{IsCodeOfRow};

use pig_keycode::decode_row;
use pig_value::Tuple;
use std::alloc::{AllocError, Global};

// The bytes from a place on, up to another.
pub(crate) fn between(bytes: &[u8], begin: usize, end: usize) -> &[u8]
    ensures { result.now ≡ drop begin (take end bytes.now) }
{
    let front = match bytes.get(..end) {
        Some(front) => front,
        None => bytes,
    };
    match front.get(begin..) {
        Some(rest) => rest,
        None => &[],
    }
}

// The place where the code of a row begins: where the one before it ends.
pub(crate) fn begin_of(ends: &[usize], at: usize) -> usize
    requires { at < length ends.now }
    ensures { slice_get (0 ∷ ends.now) at ≡ Some result }
{
    if at == 0 { 0 } else { ends[at - 1] }
}

pub(crate) fn end_of(ends: &[usize], at: usize) -> usize
    requires { at < length ends.now }
    ensures { slice_get ends.now at ≡ Some result }
{
    ends[at]
}

// Appends bytes. Where memory is wanting, they stay as they were.
pub(crate) fn extend(bytes: &mut Vec<u8>, more: &[u8]) -> Result<(), AllocError>
    ensures ok { OnOk result (bytes.new.items ≡ bytes.old.items ++ more.now) }
    ensures err { OnErr result (bytes.new.items ≡ bytes.old.items) }
{
    bytes.extend_from_slice(more)?;
    Ok(())
}

// Adds a place. Where memory is wanting, the places stay as they were.
pub(crate) fn push_end(ends: &mut Vec<usize>, end: usize) -> Result<(), AllocError>
    ensures ok { OnOk result (ends.new.items ≡ ends.old.items ++ end ∷ []) }
    ensures err { OnErr result (ends.new.items ≡ ends.old.items) }
{
    ends.push(end)?;
    Ok(())
}

// The row of a code.
pub(crate) fn read_row(alloc: Global, code: &[u8]) -> Result<Tuple, AllocError>
    ensures { (row : List Tree) → IsCodeOfRow code.now row
        → IfOk result (λ found. row_tree found ≡ row) }
{
    match decode_row(alloc, code) {
        Ok(Some(row)) => Ok(row),
        Ok(None) => Ok(Tuple::new(alloc)),
        Err(fault) => Err(fault),
    }
}

ghost use Rattle.std.specs.Prelude.{◌≡◌, ◌++◌, ◌∷◌, [], List, OnOk};
ghost use Rattle.pig_value.specs.Trees.{Tree, row_tree, tree};
ghost use Rattle.pig_keycode.specs.Codes.{code};
ghost use Rattle.pig_packed.specs.Growth.{and_row};
ghost use Rattle.pig_plan.specs.ByKey.{nulls};
ghost use Rattle.pig_replicated.specs.Codes.{inner_code};
ghost use Rattle.pig_probe.specs.Begun.{Begins, IsBegun, begun_code};

use pig_keycode::encode;
use pig_packed::PackedBuilder;
use pig_value::{Dir, Value};
use std::alloc::AllocError;

// Begins a row by these fields, in place of what was begun.
pub fn begin_row(fields: &[Value], front: &mut Vec<u8>) -> Result<(), AllocError>
    ensures { OnOk result (front.new.items ≡ begun_code (row_tree fields.now)) }
{
    front.clear();
    front.push(6)?;
    for field in fields {
        add_field(field, front)?;
    }
    Ok(())
}

fn add_field(field: &Value, front: &mut Vec<u8>) -> Result<(), AllocError>
    ensures { OnOk result (front.new.items ≡ front.old.items ++ 1 ∷ code (tree field.now)) }
{
    front.push(1)?;
    encode(field, Dir::Asc, front)
}

// Adds so many nulls to a row that is begun.
pub fn add_nulls(front: &mut Vec<u8>, count: u32) -> Result<(), AllocError>
    ensures { OnOk result (front.new.items ≡ front.old.items ++ inner_code (nulls count)) }
{
    for _i in 0..count {
        add_bytes(front, &[1, 0])?;
    }
    Ok(())
}

// Adds bytes.
pub fn add_bytes(front: &mut Vec<u8>, more: &[u8]) -> Result<(), AllocError>
    ensures { OnOk result (front.new.items ≡ front.old.items ++ more.now) }
{
    front.extend_from_slice(more)?;
    Ok(())
}

// Adds the row that is begun, which stays begun.
pub fn add_row(front: &mut Vec<u8>, built: &mut PackedBuilder) -> Result<(), AllocError>
    requires front { IsBegun front.old.items }
    requires none_begun { built.old.begun ≡ [] }
    ensures row { (fields : List Tree) → Begins front.old.items fields
        → OnOk result (built.new ≡ and_row fields built.old) }
    ensures front { OnOk result (front.new.items ≡ front.old.items) }
    ensures none_begun { built.new.begun ≡ [] }
{
    let size = front.as_slice().len();
    front.push(0)?;
    built.push_code(front.as_slice())?;
    front.truncate(size);
    Ok(())
}

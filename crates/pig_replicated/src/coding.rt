ghost use Rattle.std.specs.Prelude.{◌≡◌, [], ◌∷◌, ◌++◌, map, IfOk, OnOk};
ghost use Rattle.pig_value.specs.Trees.{row_tree, rows_tree, tree};
ghost use Rattle.pig_keycode.specs.Codes.{code};
ghost use Rattle.pig_replicated.specs.Codes.{inner_code, key_code, row_codes};

use crate::groups::Group;
use indexmap::IndexSet;
use pig_keycode::encode;
use pig_value::{Dir, Tuple, Value};
use std::alloc::{AllocError, Global};

// The codes of rows, for each row those of its fields behind one another.
pub type RowCodes = Vec<Vec<u8>>;

// The codes of the groups' keys, in the order of the groups.
pub fn key_codes(alloc: Global, groups: &[Group]) -> Result<IndexSet<Vec<u8>>, AllocError>
    ensures { IfOk result (λ codes. map (λ k. k.items) codes.keys ≡ map key_code groups.now) }
{
    let mut codes = IndexSet::new(alloc);
    for group in groups {
        add_code(&mut codes, code_of(alloc, &group.key)?)?;
    }
    Ok(codes)
}

// Adds a code, which is a new one: no two values have the same.
fn add_code(codes: &mut IndexSet<Vec<u8>>, bytes: Vec<u8>) -> Result<(), AllocError>
    ensures { OnOk result (map (λ k. k.items) codes.new.keys
        ≡ map (λ k. k.items) codes.old.keys ++ bytes.items ∷ []) }
{
    let added = codes.insert(bytes)?;
    if added { Ok(()) } else { Err(AllocError) }
}

fn code_of(alloc: Global, key: &Value) -> Result<Vec<u8>, AllocError>
    ensures { IfOk result (λ bytes. bytes.items ≡ code (tree key.now)) }
{
    let mut bytes = Vec::new(alloc);
    encode(key, Dir::Asc, &mut bytes)?;
    Ok(bytes)
}

// The codes of the rows of each group.
pub fn codes_of_groups(alloc: Global, groups: &[Group]) -> Result<Vec<RowCodes>, AllocError>
    ensures { IfOk result (λ codes. map (λ rows. map (λ row. row.items) rows.items) codes.items
        ≡ map row_codes groups.now) }
{
    let mut codes = Vec::with_capacity(alloc, groups.len())?;
    for group in groups {
        codes.push(codes_of_rows(alloc, group.rows.as_slice())?)?;
    }
    Ok(codes)
}

fn codes_of_rows(alloc: Global, rows: &[Tuple]) -> Result<RowCodes, AllocError>
    ensures { IfOk result (λ codes. map (λ row. row.items) codes.items
        ≡ map inner_code (rows_tree rows.now)) }
{
    let mut codes = Vec::with_capacity(alloc, rows.len())?;
    for row in rows {
        codes.push(code_of_fields(alloc, row.as_slice())?)?;
    }
    Ok(codes)
}

fn code_of_fields(alloc: Global, fields: &[Value]) -> Result<Vec<u8>, AllocError>
    ensures { IfOk result (λ bytes. bytes.items ≡ inner_code (row_tree fields.now)) }
{
    let mut bytes = Vec::new(alloc);
    for field in fields {
        add_field(field, &mut bytes)?;
    }
    Ok(bytes)
}

// Adds the code of a field as it stands within that of its row.
fn add_field(field: &Value, bytes: &mut Vec<u8>) -> Result<(), AllocError>
    ensures { OnOk result (bytes.new.items ≡ bytes.old.items ++ 1 ∷ code (tree field.now)) }
{
    bytes.push(1)?;
    encode(field, Dir::Asc, bytes)
}

//! The texts of kinds and of the columns of a LOAD.
ghost use Rattle.std.specs.Prelude.{◌≡◌, ◌++◌, [], map, codes, OnOk};
ghost use Rattle.pig_value.specs.Trees.{kind_tree, kinds_of};
ghost use Rattle.pig_explain.specs.Joins.{joined};
ghost use Rattle.pig_explain.specs.KindTexts.{column_text, kind_text, kinds_text};

use crate::puts::{put, put_number};
use pig_value::{Column, Kind};
use std::alloc::AllocError;

#[cycle(kind)]
pub fn put_kind(kind: &Kind, out: &mut Vec<u8>) -> Result<(), AllocError>
    ensures { OnOk result (out.new.items ≡ out.old.items ++ kind_text (kind_tree kind.now)) }
{
    match kind {
        Kind::Boolean => put(b"boolean", out),
        Kind::Int => put(b"int", out),
        Kind::Long => put(b"long", out),
        Kind::Chararray => put(b"chararray", out),
        Kind::Bytearray => put(b"bytearray", out),
        Kind::Tuple(kinds) => {
            put(b"tuple(", out)?;
            put_kinds(kinds.as_slice(), out)?;
            put(b")", out)
        }
        Kind::Bag(kinds) => {
            put(b"bag{", out)?;
            put_kinds(kinds.as_slice(), out)?;
            put(b"}", out)
        }
        Kind::Map(of) => {
            put(b"map[", out)?;
            put_kind(of.get(), out)?;
            put(b"]", out)
        }
    }
}

// Kinds with a comma between each two.
#[cycle(kind)]
fn put_kinds(kinds: &[Kind], out: &mut Vec<u8>) -> Result<(), AllocError>
    ensures { OnOk result (out.new.items
        ≡ out.old.items ++ kinds_text [] (kinds_of (map kind_tree kinds.now))) }
{
    let mut before: &[u8] = b"";
    for kind in kinds {
        put(before, out)?;
        put_kind(kind, out)?;
        before = b",";
    }
    Ok(())
}

// Columns, each behind a space.
pub fn put_columns(columns: &[Column], out: &mut Vec<u8>) -> Result<(), AllocError>
    ensures { OnOk result (out.new.items
        ≡ out.old.items ++ joined (codes " ") (codes " ") (map column_text columns.now)) }
{
    for column in columns {
        put(b" ", out)?;
        put_column(column, out)?;
    }
    Ok(())
}

fn put_column(column: &Column, out: &mut Vec<u8>) -> Result<(), AllocError>
    ensures { OnOk result (out.new.items ≡ out.old.items ++ column_text column.now) }
{
    put_number(u64::from(column.position), out)?;
    put(b":", out)?;
    put_kind(&column.kind, out)
}

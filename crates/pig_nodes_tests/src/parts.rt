// Operators, and what they are made of.
use pig_plan::{KeyedInput, NodeOp};
use pig_typed::{BlockItem, SortKey, SortKeys, TExpr, TExprs};
use pig_value::{Boxed, Column, Columns, Delim, Dir, Function, Kind, Kinds, Rel, Text};
use std::alloc::{AllocError, Global};

/// The kinds of so many chararrays.
fn chararrays(alloc: Global, count: u32) -> Result<Kinds, AllocError> {
    let mut kinds = Kinds::new(alloc);
    for _ in 0..count {
        kinds.push(Kind::Chararray)?;
    }
    Ok(kinds)
}

fn kind(alloc: Global, letter: u8) -> Result<Kind, AllocError> {
    Ok(match letter {
        b'i' => Kind::Int,
        b'l' => Kind::Long,
        b't' => Kind::Tuple(chararrays(alloc, 2)?),
        b'b' => Kind::Bag(chararrays(alloc, 3)?),
        _ => Kind::Chararray,
    })
}

fn columns(alloc: Global, kinds: &str) -> Result<Columns, AllocError> {
    let mut columns = Columns::new(alloc);
    let mut position: u32 = 0;
    for letter in kinds.as_bytes() {
        let kind = kind(alloc, *letter)?;
        columns.push(Column { position, kind })?;
        position = position.saturating_add(1);
    }
    Ok(columns)
}

/// A LOAD of the first columns, each a letter: `i` for an int, `l` for a long, `t` for a tuple of two
/// chararrays, `b` for a bag of three, and else a chararray.
pub fn load(alloc: Global, kinds: &str, path: &str) -> Result<NodeOp, AllocError> {
    let path = Text::from_str(alloc, path)?;
    let columns = columns(alloc, kinds)?;
    Ok(NodeOp::Load {
        path,
        delim: Delim::tab(),
        columns,
    })
}

/// A STORE of a node.
pub fn store(alloc: Global, input: u32, path: &str) -> Result<NodeOp, AllocError> {
    Ok(NodeOp::Store {
        input,
        path: Text::from_str(alloc, path)?,
        delim: Delim::tab(),
    })
}

/// A first field above 1.
pub fn above(alloc: Global) -> Result<TExpr, AllocError> {
    let a = Boxed::new(alloc, TExpr::Field(0))?;
    let b = Boxed::new(alloc, TExpr::Int(1))?;
    Ok(TExpr::Compare { op: Rel::Gt, a, b })
}

/// A function of one argument.
pub fn call(alloc: Global, function: Function, arg: TExpr) -> Result<TExpr, AllocError> {
    let mut args = TExprs::new(alloc);
    args.push(arg)?;
    Ok(TExpr::Call { function, args })
}

/// An item of one field.
pub fn item(value: TExpr) -> BlockItem {
    BlockItem {
        value,
        flatten: false,
        width: 1,
    }
}

/// An item that is flattened, of so many fields.
pub fn flat(value: TExpr, width: u32) -> BlockItem {
    BlockItem {
        value,
        flatten: true,
        width,
    }
}

/// An input by a key.
pub fn keyed(alloc: Global, input: u32, key: TExpr, inner: bool) -> Result<KeyedInput, AllocError> {
    let mut keys = TExprs::new(alloc);
    keys.push(key)?;
    Ok(KeyedInput { input, keys, inner })
}

/// These fields as keys, of which the first goes in a direction, and each other ascends.
pub fn sort_keys(alloc: Global, first: Dir, positions: &[u32]) -> Result<SortKeys, AllocError> {
    let mut keys = SortKeys::new(alloc);
    let mut dir = first;
    for position in positions {
        let position = *position;
        keys.push(SortKey { position, dir })?;
        dir = Dir::Asc;
    }
    Ok(keys)
}

//! What no clause says of written types at the limits: that the widest and the deepest are typed with ample memory.
// Trees end by `drop`: one call is cheap to prove, and a tree that dies by name is taken apart variant by variant.
use crate::shared::{boxed, choice, columns, locals, push};
use pig_syntax::{Expr, FieldTree, Fields, TypeTree};
use pig_typing::{CheckKind, Scope, TypeFault, type_expr};
use pig_value::{Boxed, Kind, Seq, Text};
use std::alloc::Global;
use std::process::Abort;

// A type of tuples, each of so many ints.
#[derive(Clone, Copy, Drop)]
struct Size {
    tuples: usize,
    ints: usize,
}

fn add_field<R: Abort>(rt: &R, alloc: Global, fields: &mut Fields, kind: TypeTree) {
    let name = Text::from_str(alloc, "f").expect(rt, "memory");
    push(
        rt,
        fields,
        FieldTree {
            name,
            kind: Some(kind),
        },
    );
}

fn ints<R: Abort>(rt: &R, alloc: Global, count: usize) -> TypeTree {
    let mut fields = Seq::new(alloc);
    for _ in 0..count {
        add_field(rt, alloc, &mut fields, TypeTree::Int);
    }
    TypeTree::Tuple(fields)
}

fn tuples<R: Abort>(rt: &R, alloc: Global, size: Size) -> TypeTree {
    let mut fields = Seq::new(alloc);
    for _ in 0..size.tuples {
        add_field(rt, alloc, &mut fields, ints(rt, alloc, size.ints));
    }
    TypeTree::Tuple(fields)
}

// Tuples of one field, one in the other around an int.
fn nested<R: Abort>(rt: &R, alloc: Global, depth: usize) -> TypeTree {
    let mut kind = TypeTree::Int;
    for _ in 0..depth {
        let mut fields = Seq::new(alloc);
        add_field(rt, alloc, &mut fields, kind);
        kind = TypeTree::Tuple(fields);
    }
    kind
}

fn outcome<R: Abort>(rt: &R, alloc: Global, to: TypeTree, scope: &Scope) -> Option<CheckKind> {
    let a = boxed(rt, alloc, "b");
    let expr = Expr::Cast { to, a };
    let found = type_expr(alloc, &expr, scope);
    let kind = match &found {
        Err(TypeFault::Refused(kind)) => Some(*kind),
        _ => None,
    };
    drop((expr, found));
    kind
}

// Types, how many kinds there are within, and what is due of a cast to each.
const SIZES: [(Size, usize, Option<CheckKind>); 4] = [
    (
        Size {
            tuples: 9,
            ints: 454,
        },
        4096,
        None,
    ),
    (
        Size {
            tuples: 8,
            ints: 511,
        },
        4097,
        Some(CheckKind::TooWide),
    ),
    (
        Size {
            tuples: 1,
            ints: 512,
        },
        514,
        None,
    ),
    (
        Size {
            tuples: 1,
            ints: 513,
        },
        515,
        Some(CheckKind::TooWide),
    ),
];

#[test]
fn counts_kinds(rt: HostRuntime) {
    let alloc = rt.alloc();
    let columns = columns(&rt, alloc);
    let locals = locals(&rt, alloc);
    let scope = Scope {
        columns: &columns,
        locals: &locals,
    };
    for (size, count, wanted) in SIZES {
        let found = outcome(&rt, alloc, tuples(&rt, alloc, size), &scope);
        assert!(rt; found == wanted, "{count} kinds");
    }
}

#[test]
fn counts_depth(rt: HostRuntime) {
    let alloc = rt.alloc();
    let columns = columns(&rt, alloc);
    let locals = locals(&rt, alloc);
    let scope = Scope {
        columns: &columns,
        locals: &locals,
    };
    let within = outcome(&rt, alloc, nested(&rt, alloc, 63), &scope);
    let past = outcome(&rt, alloc, nested(&rt, alloc, 64), &scope);
    assert!(rt; within == None);
    assert!(rt; past == Some(CheckKind::TooDeep));
}

// As deep as a tree of the language nests: choices, one in the other, with signs around them.
const CHOICES: usize = 1_024;

const SIGNS: usize = 976;

fn deepest<R: Abort>(rt: &R, alloc: Global) -> Expr {
    let mut expr = Expr::Long(1);
    for _ in 0..CHOICES {
        expr = choice(rt, alloc, Expr::Int(1), expr);
    }
    for _ in 0..SIGNS {
        expr = Expr::Minus(Boxed::new(alloc, expr).expect(rt, "memory"));
    }
    expr
}

fn is_long(kind: &Kind) -> bool {
    matches!(kind, Kind::Long)
}

#[test]
fn types_the_deepest(rt: HostRuntime) {
    let alloc = rt.alloc();
    let columns = columns(&rt, alloc);
    let locals = locals(&rt, alloc);
    let scope = Scope {
        columns: &columns,
        locals: &locals,
    };
    let expr = deepest(&rt, alloc);
    let found = type_expr(alloc, &expr, &scope);
    let wanted = match &found {
        Ok(typed) => is_long(&typed.column.kind),
        Err(_) => false,
    };
    drop((expr, found));
    assert!(rt; wanted);
}

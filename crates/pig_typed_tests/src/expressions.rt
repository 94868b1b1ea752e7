//! Kinds of expressions and of their copies.
// Trees end by `drop`: one call is cheap to prove, and a tree that dies by name is taken apart variant by variant.
use crate::showing::{add, show};
use crate::writing::{locals, row, written};
use pig_typed::{TExpr, copy_expr, kind_of};
use pig_value::Kind;
use std::alloc::Global;
use std::process::Abort;

// A line for each expression, as letters write it, and its kind, or `-` where it has none.
const TABLE: &str = "n y
t b
i i
l l
c c
0 i
7 [i]
8 -
L {i}
N -
01+ l
00+ i
10- l
02- -
00x i
04x -
11/ l
0c/ -
0i%1+ l
0t% -
02+ -
0n+ -
0i+c+ -
04& -
44& b
44| b
4n| -
4t|4& b
00= b
01= -
22< b
33< b
44< -
44= b
55= b
66= -
77= b
77< -
0n= -
00^ b
01^ -
66^ -
22> b
44> -
33e b
01e -
11g b
55g -
0z b
8z -
0w b
8w -
4! b
0! -
0~ i
1~ l
2~ -
412? -
411? l
455? (ic)
033? -
n00? -
3I i
3G l
2I i
2B b
2Y -
0G l
1I i
4C c
4I -
0Y -
5C -
7Y -
3B b
5p i
5q c
5r (ic)
5s -
5o -
5v -
6p {i}
6r {il}
6s -
6o -
6v -
0p -
7# i
6# -
6U l
0U -
6D l
7D -
LS l
6S -
6qS l
LM i
2M -
6qH l
6H -
0A i
1A l
2A -
7Z l
5Z l
00d -
6E b
7E b
0E -
2T {c}
3T -
22K c
33K y
23K -
00K -
02W (ic)
u -
00V {i}
02V -
55V -
55R {ic}
55F -
00R -
22X i
20X -
22P b
23P -
2cQ b
20Q -
200J c
20iJ c
201J -
000J -
";

fn kind_on_row<R: Abort>(rt: &R, alloc: Global, e: &TExpr) -> Option<Kind> {
    let row = row(rt, alloc);
    let locals = locals(rt, alloc);
    kind_of(alloc, e, &row, &locals).expect(rt, "memory")
}

fn show_found<R: Abort>(rt: &R, found: &Option<Kind>, into: &mut String) {
    match found {
        Some(kind) => show(rt, kind, into),
        None => add(rt, into, "-"),
    }
}

// The kind, on the row and the local, of a copy of the expression.
fn show_kind<R: Abort>(rt: &R, alloc: Global, letters: &[u8], into: &mut String) {
    let e = written(rt, alloc, letters);
    let copied = copy_expr(alloc, &e).expect(rt, "memory");
    let found = kind_on_row(rt, alloc, &copied);
    show_found(rt, &found, into);
    drop((e, copied, found));
}

#[test]
fn expressions_have_their_kinds(rt: HostRuntime) {
    let mut found = String::new(rt.alloc());
    for line in TABLE.lines() {
        let letters = line.split(' ').next().unwrap_or("");
        add(&rt, &mut found, letters);
        add(&rt, &mut found, " ");
        show_kind(&rt, rt.alloc(), letters.as_bytes(), &mut found);
        add(&rt, &mut found, "\n");
    }
    assert_eq!(rt; found.as_str(), TABLE);
}

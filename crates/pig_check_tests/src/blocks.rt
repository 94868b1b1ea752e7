//! Nested blocks and items: each kind of refusal at the sorts of places where it can stand in a FOREACH, and blocks that are typed.
use crate::shared::{add, copied, third_is};
use std::alloc::Global;
use std::process::Abort;

// A relation r, and f with a second field `c`; the FOREACH that is tried is the third statement.
const BEFORE: &str =
    "r = LOAD 'r' AS (key:chararray, a:{(k:chararray, n:int, s:chararray)}, b:{(x:int, f:bytearray, g:{(y:int)})}, \
m:map[], c:int); f = FOREACH r GENERATE *, c AS c; y = FOREACH f ";

// A line for each FOREACH of f: the kind that is due, or `fine`.
const BLOCKS: &str = "\
fine: { o = ORDER a BY n; t = LIMIT o 1; GENERATE key, t, o.(n, s); };\n\
fine: { z = LIMIT a 1; z = LIMIT b 2; y = z.g; GENERATE FLATTEN(y); };\n\
fine: { a = b; GENERATE a.g, $1; };\n\
fine: { q = FILTER b BY f; d = DISTINCT b.x; GENERATE q.x, COUNT(d); };\n\
fine: { o = ORDER b.(x, f) BY * DESC; GENERATE FLATTEN(o); };\n\
fine: GENERATE key, FLATTEN(a), FLATTEN(b);\n\
UnknownField: { a = b; GENERATE a.k; };\n\
UnknownField: { z = LIMIT b 2; z = LIMIT a 1; y = z.g; GENERATE FLATTEN(y); };\n\
UnknownField: { y = zz; GENERATE *; };\n\
UnknownField: { y = z; z = a; GENERATE *; };\n\
AmbiguousField: { y = c; GENERATE *; };\n\
PositionOut: { y = $9; GENERATE *; };\n\
TypeMismatch: { y = key; GENERATE *; };\n\
TypeMismatch: { y = LIMIT m 1; GENERATE *; };\n\
UnknownField: { y = a.zz; GENERATE *; };\n\
PositionOut: { y = DISTINCT a.$3; GENERATE *; };\n\
TypeMismatch: { y = key.n; GENERATE *; };\n\
TypeMismatch: { y = FILTER a BY n; GENERATE *; };\n\
UnknownField: { y = FILTER a BY key == 'x'; GENERATE *; };\n\
UnknownField: { y = a; z = FILTER b BY y; GENERATE *; };\n\
FloatType: { y = FILTER a BY n > 1.5; GENERATE *; };\n\
FloatType: { y = FILTER a BY AVG(n) > 1; GENERATE *; };\n\
UnknownFunction: { y = FILTER a BY NOPE(n); GENERATE *; };\n\
WrongArguments: { y = FILTER a BY COUNT(n, n) > 1; GENERATE *; };\n\
UnknownField: { y = ORDER a BY zz; GENERATE *; };\n\
PositionOut: { y = ORDER a BY $3; GENERATE *; };\n\
BadKey: { y = ORDER b BY g; GENERATE *; };\n\
BadKey: { y = ORDER b BY x DESC, g; GENERATE *; };\n\
BadKey: { y = ORDER b BY *; GENERATE *; };\n\
UnknownField: GENERATE zz;\n\
AmbiguousField: GENERATE c;\n\
PositionOut: GENERATE $9;\n\
TypeMismatch: GENERATE FLATTEN(m);\n\
FloatType: GENERATE 1.5;\n\
UnknownFunction: GENERATE NOPE(a);\n\
WrongArguments: GENERATE COUNT(a, a);\n\
SchemaMismatch: GENERATE key AS (x, y);\n\
SchemaMismatch: GENERATE FLATTEN(a) AS (x, y);\n\
UnknownField: { y = a; GENERATE y, z; };";

#[test]
fn types_each_block(rt: HostRuntime) {
    for row in BLOCKS.lines() {
        let (wanted, block) = row.split_once(": ").unwrap_or(("none", ""));
        let mut script = copied(&rt, rt.alloc(), BEFORE);
        add(&rt, &mut script, block);
        assert!(rt;
            third_is(&rt, rt.alloc(), script.as_str(), wanted),
            "{block}"
        );
    }
}

// So many steps that each take the one before, and so many items.
fn large<R: Abort>(rt: &R, alloc: Global, steps: usize, items: usize) -> String {
    let mut script = copied(rt, alloc, BEFORE);
    add(rt, &mut script, "{ y = a; ");
    for _ in 1..steps {
        add(rt, &mut script, "y = y; ");
    }
    add(rt, &mut script, "GENERATE key");
    for _ in 1..items {
        add(rt, &mut script, ", y");
    }
    add(rt, &mut script, "; };");
    script
}

#[test]
fn types_large_blocks(rt: HostRuntime) {
    let typed = large(&rt, rt.alloc(), 64, 512);
    assert!(rt; third_is(&rt, rt.alloc(), typed.as_str(), "fine"));
    let refused = large(&rt, rt.alloc(), 1, 513);
    assert!(rt; third_is(&rt, rt.alloc(), refused.as_str(), "TooWide"));
}

//! CUBE and ROLLUP: each kind of refusal, the columns that they give, and the two nodes that each is.
use crate::plans::shown_plans;
use crate::shared::{add, copied, third_is, told};

// A relation of nine texts and three other fields, and one in which `p` is two fields; what is tried is the third statement.
const BEFORE: &str =
    "a = LOAD 'a' AS (p:chararray, y:chararray, c:chararray, d:chararray, e:chararray, f:chararray, g:chararray, h:chararray, \
i:chararray, s:int, u, t:(p:chararray)); x = FOREACH a GENERATE *, p AS p; z = ";

// A line for each operator: the kind that is due, or `fine`.
const OPERATORS: &str = "\
fine: CUBE a BY CUBE(p);\n\
fine: CUBE a BY ROLLUP($1, p) PARALLEL 2;\n\
fine: CUBE a BY CUBE(i, h, g, f, e, d, c, y);\n\
fine: CUBE x BY ROLLUP($0, $12);\n\
UnknownAlias: CUBE zz BY CUBE(p);\n\
UnknownField: CUBE a BY CUBE(p, zz);\n\
UnknownField: CUBE a BY CUBE(group);\n\
AmbiguousField: CUBE x BY ROLLUP(p);\n\
PositionOut: CUBE a BY CUBE(y, $12);\n\
BadKey: CUBE a BY CUBE(s);\n\
BadKey: CUBE a BY ROLLUP(p, u);\n\
BadKey: CUBE a BY CUBE(t);\n\
BadKey: CUBE a BY CUBE(p, y, p);\n\
BadKey: CUBE a BY ROLLUP(p, $0);\n\
Unsupported: CUBE a BY CUBE(p, y, c, d, e, f, g, h, i);";

#[test]
fn types_each_cube(rt: HostRuntime) {
    for row in OPERATORS.lines() {
        let (wanted, operator) = row.split_once(": ").unwrap_or(("none", ""));
        let mut script = copied(&rt, rt.alloc(), BEFORE);
        add(&rt, &mut script, operator);
        assert!(rt;
            third_is(&rt, rt.alloc(), script.as_str(), wanted),
            "{operator}"
        );
    }
}

// A line for each script: the number of its statement and the kind that is due, or `fine`.
const SCRIPTS: &str = "\
fine: a = LOAD 'i' AS (p:chararray, y:chararray, s:int); c = CUBE a BY CUBE(p, y); r = FOREACH c GENERATE group.p, group.y, SUM(cube.s), COUNT(cube.p);\n\
fine: a = LOAD 'i' AS (s:int, p:chararray, t:(x:int)); c = CUBE a BY ROLLUP(p); r = FOREACH c GENERATE group, FLATTEN(cube); f = FILTER r BY group == cube::p AND cube::s > cube::t.x;\n\
fine: a = LOAD 'i' AS (s:int, p:chararray); c = CUBE a BY CUBE(p); r = FOREACH c { o = ORDER cube BY $1; GENERATE group, o; }; ASSERT c BY group IS NULL OR COUNT(cube) > 0;\n\
3 TypeMismatch: a = LOAD 'i' AS (p:chararray, s:int); c = CUBE a BY CUBE(p); r = FOREACH c GENERATE group.p;\n\
3 UnknownField: a = LOAD 'i' AS (p:chararray, s:int); c = CUBE a BY CUBE(p); r = FOREACH c GENERATE SUM(a.s);\n\
3 BadKey: a = LOAD 'i' AS (p:chararray, y:chararray); c = CUBE a BY CUBE(p, y); d = CUBE c BY CUBE(group);";

#[test]
fn gives_columns(rt: HostRuntime) {
    for row in SCRIPTS.lines() {
        let (wanted, script) = row.split_once(": ").unwrap_or(("none", ""));
        let found = told(&rt, rt.alloc(), script);
        assert_eq!(rt; found.as_str(), wanted, "{script}");
    }
}

// A script on each line that doesn't begin with `- `, and behind it its nodes.
const PLANS: &str = "\
a = LOAD 'in' AS (p:chararray, s:int, y:chararray); c = CUBE a BY CUBE(y, $0) PARALLEL 2; r = DISTINCT c;\n\
- 1: Load { path: 'in', delim: Delim { byte: 9 }, columns: [Column { position: 0, kind: Chararray }, Column { position: 1, kind: Int }, Column { position: 2, kind: Chararray }] }\n\
- 2: Foreach { input: 0, block: Block { steps: [], items: [BlockItem { value: Call { function: ToBag { width: Some(2) }, args: [Call { function: ToTuple, args: [Choose { cond: IsNull { a: Field(2), not: false }, yes: Chars('unknown'), no: Field(2) }, Choose { cond: IsNull { a: Field(0), not: false }, yes: Chars('unknown'), no: Field(0) }] }, Call { function: ToTuple, args: [Choose { cond: IsNull { a: Field(2), not: false }, yes: Chars('unknown'), no: Field(2) }, Cast { to: Chararray, a: Null }] }, Call { function: ToTuple, args: [Cast { to: Chararray, a: Null }, Choose { cond: IsNull { a: Field(0), not: false }, yes: Chars('unknown'), no: Field(0) }] }, Call { function: ToTuple, args: [Cast { to: Chararray, a: Null }, Cast { to: Chararray, a: Null }] }] }, flatten: true, width: 2 }, BlockItem { value: Field(1), flatten: false, width: 1 }] } }\n\
- 2: Group { inputs: [KeyedInput { input: 1, keys: [Field(0), Field(1)], inner: false }] }\n\
- 3: Distinct { input: 2 }\n\
a = LOAD 'in' AS (p:chararray, s:int, y:chararray); a = CUBE a BY ROLLUP(p, y);\n\
- 1: Load { path: 'in', delim: Delim { byte: 9 }, columns: [Column { position: 0, kind: Chararray }, Column { position: 1, kind: Int }, Column { position: 2, kind: Chararray }] }\n\
- 2: Foreach { input: 0, block: Block { steps: [], items: [BlockItem { value: Call { function: ToBag { width: Some(2) }, args: [Call { function: ToTuple, args: [Cast { to: Chararray, a: Null }, Cast { to: Chararray, a: Null }] }, Call { function: ToTuple, args: [Choose { cond: IsNull { a: Field(0), not: false }, yes: Chars('unknown'), no: Field(0) }, Cast { to: Chararray, a: Null }] }, Call { function: ToTuple, args: [Choose { cond: IsNull { a: Field(0), not: false }, yes: Chars('unknown'), no: Field(0) }, Choose { cond: IsNull { a: Field(2), not: false }, yes: Chars('unknown'), no: Field(2) }] }] }, flatten: true, width: 2 }, BlockItem { value: Field(1), flatten: false, width: 1 }] } }\n\
- 2: Group { inputs: [KeyedInput { input: 1, keys: [Field(0), Field(1)], inner: false }] }\n\
a = LOAD 'in' AS (p:chararray, s:int, y:chararray); c = CUBE a BY CUBE(y); b = CUBE c BY ROLLUP(group);\n\
- 1: Load { path: 'in', delim: Delim { byte: 9 }, columns: [Column { position: 0, kind: Chararray }, Column { position: 1, kind: Int }, Column { position: 2, kind: Chararray }] }\n\
- 2: Foreach { input: 0, block: Block { steps: [], items: [BlockItem { value: Call { function: ToBag { width: Some(1) }, args: [Call { function: ToTuple, args: [Choose { cond: IsNull { a: Field(2), not: false }, yes: Chars('unknown'), no: Field(2) }] }, Call { function: ToTuple, args: [Cast { to: Chararray, a: Null }] }] }, flatten: true, width: 1 }, BlockItem { value: Field(0), flatten: false, width: 1 }, BlockItem { value: Field(1), flatten: false, width: 1 }] } }\n\
- 2: Group { inputs: [KeyedInput { input: 1, keys: [Field(0)], inner: false }] }\n\
- 3: Foreach { input: 2, block: Block { steps: [], items: [BlockItem { value: Call { function: ToBag { width: Some(1) }, args: [Call { function: ToTuple, args: [Cast { to: Chararray, a: Null }] }, Call { function: ToTuple, args: [Choose { cond: IsNull { a: Field(0), not: false }, yes: Chars('unknown'), no: Field(0) }] }] }, flatten: true, width: 1 }, BlockItem { value: Field(1), flatten: false, width: 1 }] } }\n\
- 3: Group { inputs: [KeyedInput { input: 3, keys: [Field(0)], inner: false }] }\n";

#[test]
fn gives_the_nodes_of_cubes(rt: HostRuntime) {
    let found = shown_plans(&rt, rt.alloc(), PLANS);
    assert_eq!(rt; found.as_str(), PLANS);
}

//! ASSERT, which gives its alias anew, and the forms that leave other trees, CASE and IN: kinds of refusal, and plans.
use crate::plans::shown_plans;
use crate::shared::told;

// A line for each script: the number of its statement and the kind that is due, or `fine`.
const SCRIPTS: &str = "\
2 UnknownAlias: a = LOAD 'i' AS (x:int); ASSERT b BY x > 0;\n\
2 UnknownField: a = LOAD 'i' AS (x:int); ASSERT a BY y > 0, 'm';\n\
2 PositionOut: a = LOAD 'i' AS (x:int); ASSERT a BY $1 > 0;\n\
2 TypeMismatch: a = LOAD 'i' AS (x:int); ASSERT a BY x;\n\
2 TypeMismatch: a = LOAD 'i' AS (x:int); ASSERT a BY x == 'k', 'm';\n\
2 FloatType: a = LOAD 'i' AS (x:int); ASSERT a BY x > 1.5;\n\
3 UnknownField: a = LOAD 'i' AS (x:int); ASSERT a BY x > 0; b = FILTER a BY y == 1;\n\
fine: a = LOAD 'i' AS (x:int); ASSERT a BY x > 0; ASSERT a BY x < 9; b = FILTER a BY x == 1; STORE a INTO 'o';\n\
2 TypeMismatch: a = LOAD 'i' AS (x:int); b = FILTER a BY x IN (1, 'k');\n\
2 TypeMismatch: a = LOAD 'i' AS (x:int, m:map[]); b = FILTER a BY x IN (m);\n\
2 UnknownField: a = LOAD 'i' AS (x:int); b = FILTER a BY x IN (1, y);\n\
2 TypeMismatch: a = LOAD 'i' AS (x:int); b = FOREACH a GENERATE CASE x WHEN 1 THEN 'one' ELSE 2 END;\n\
2 TypeMismatch: a = LOAD 'i' AS (x:int); b = FOREACH a GENERATE CASE x WHEN 'k' THEN 1 ELSE 2 END;\n\
2 TypeMismatch: a = LOAD 'i' AS (x:int); b = FOREACH a GENERATE CASE WHEN x THEN 1 END;\n\
2 TypeMismatch: a = LOAD 'i' AS (x:int); b = FOREACH a GENERATE CASE WHEN x > 1 THEN 'a' WHEN x > 0 THEN x END;\n\
fine: a = LOAD 'i' AS (x:int, y:long, b); c = FILTER a BY x IN (1, 2L, y, b) OR NOT b IN (x, 'k'); ASSERT c BY CASE x WHEN y THEN b END;";

#[test]
fn refuses_by_kind(rt: HostRuntime) {
    for row in SCRIPTS.lines() {
        let (wanted, script) = row.split_once(": ").unwrap_or(("none", ""));
        let found = told(&rt, rt.alloc(), script);
        assert_eq!(rt; found.as_str(), wanted, "{script}");
    }
}

// A script on each line that doesn't begin with `- `, and behind it its nodes.
const PLANS: &str = "\
a = LOAD 'in' AS (x:int, b); ASSERT a BY x > 0, 'it\\'s'; ASSERT a BY b; o = FILTER a BY x < 9;\n\
- 1: Load { path: 'in', delim: Delim { byte: 9 }, columns: [Column { position: 0, kind: Int }, Column { position: 1, kind: Bytearray }] }\n\
- 2: Assert { input: 0, cond: Compare { op: Gt, a: Field(0), b: Int(0) }, message: Some('it's') }\n\
- 3: Assert { input: 1, cond: Cast { to: Boolean, a: Field(1) }, message: None }\n\
- 4: Filter { input: 2, cond: Compare { op: Lt, a: Field(0), b: Int(9) } }\n\
a = LOAD 'in' AS (x:int); o = ORDER a BY x; ASSERT o BY x IS NOT NULL; l = LIMIT o 1; STORE l INTO 'p';\n\
- 1: Load { path: 'in', delim: Delim { byte: 9 }, columns: [Column { position: 0, kind: Int }] }\n\
- 2: Order { input: 0, keys: [SortKey { position: 0, dir: Asc }] }\n\
- 3: Assert { input: 1, cond: IsNull { a: Field(0), not: true }, message: None }\n\
- 4: Limit { input: 2, count: 1 }\n\
- 5: Store { input: 3, path: 'p', delim: Delim { byte: 9 } }\n\
a = LOAD 'in' AS (x:int, y:long); o = FOREACH a GENERATE CASE x WHEN 1 THEN 'one' ELSE 'more' END, x IN (2, y), CASE WHEN x > 1 THEN x END;\n\
- 1: Load { path: 'in', delim: Delim { byte: 9 }, columns: [Column { position: 0, kind: Int }, Column { position: 1, kind: Long }] }\n\
- 2: Foreach { input: 0, block: Block { steps: [], items: [BlockItem { value: Choose { cond: Compare { op: Eq, a: Field(0), b: Int(1) }, yes: Chars('one'), no: Chars('more') }, flatten: false, width: 1 }, BlockItem { value: Chain { first: Compare { op: Eq, a: Field(0), b: Int(2) }, rest: [TLink { op: Or, a: Compare { op: Eq, a: Cast { to: Long, a: Field(0) }, b: Field(1) } }] }, flatten: false, width: 1 }, BlockItem { value: Choose { cond: Compare { op: Gt, a: Field(0), b: Int(1) }, yes: Field(0), no: Cast { to: Int, a: Null } }, flatten: false, width: 1 }] } }\n";

#[test]
fn gives_the_nodes_of_scripts(rt: HostRuntime) {
    let found = shown_plans(&rt, rt.alloc(), PLANS);
    assert_eq!(rt; found.as_str(), PLANS);
}

//! RANK: each kind of refusal, the columns that it gives, and its node.
use crate::plans::shown_plans;
use crate::shared::{add, copied, third_is, told};

// A relation of all kinds, and one in which `k` is two fields; what is tried is the third statement.
const BEFORE: &str =
    "a = LOAD 'a' AS (k:int, v:chararray, u, l:long, b:boolean, t:(x:int, y:chararray), m:map[], g:{(x:int)}, n:(b:{(x:int)})); \
x = FOREACH a GENERATE *, k AS k; z = ";

// A line for each operator: the kind that is due, or `fine`.
const OPERATORS: &str = "\
fine: RANK a BY k;\n\
fine: RANK a BY k DESC, v, u ASC, l, b, t DENSE;\n\
fine: RANK a BY $5 DESC;\n\
fine: RANK x BY $0, $9, v;\n\
UnknownAlias: RANK zz BY k;\n\
UnknownAlias: RANK A BY k;\n\
UnknownAlias: RANK z BY k DENSE;\n\
UnknownField: RANK a BY zz;\n\
UnknownField: RANK a BY k, rank_a;\n\
UnknownField: RANK a BY k, x;\n\
AmbiguousField: RANK x BY v, k DESC;\n\
PositionOut: RANK a BY $9;\n\
PositionOut: RANK a BY k, $10 DENSE;\n\
BadKey: RANK a BY m;\n\
BadKey: RANK a BY g DENSE;\n\
BadKey: RANK a BY k, n DESC;\n\
BadKey: RANK a BY *;";

#[test]
fn types_each_rank(rt: HostRuntime) {
    for row in OPERATORS.lines() {
        let (wanted, operator) = row.split_once(": ").unwrap_or(("none", ""));
        let mut script = copied(&rt, rt.alloc(), BEFORE);
        add(&rt, &mut script, operator);
        assert!(rt;
            third_is(&rt, rt.alloc(), script.as_str(), wanted),
            "{operator}"
        );
    }
}

// A line for each script: the number of its statement and the kind that is due, or `fine`.
const SCRIPTS: &str = "\
fine: a = LOAD 'i' AS (k:int, v:chararray); r = RANK a BY k DESC; f = FILTER r BY rank_a > 1 AND k > 1 AND v == 'a' AND $0 == $1;\n\
fine: a = LOAD 'i' AS (k:int, v:chararray); a = RANK a BY * DENSE; o = ORDER a BY rank_a, v DESC; ASSERT a BY rank_a > 0;\n\
fine: Ab_1 = LOAD 'i' AS (k:int); r = RANK Ab_1 BY k; s = RANK r BY rank_Ab_1 DESC; f = FILTER s BY rank_r == rank_Ab_1 AND k == 1;\n\
fine: a = LOAD 'i' AS (k:int); r = RANK a BY k; j = JOIN r BY k, a BY k; f = FILTER j BY rank_a > 1 AND r::rank_a < 3 AND r::k == a::k;\n\
fine: a = LOAD 'i' AS (k:int); r = RANK a BY k; g = GROUP r BY rank_a; c = FOREACH g GENERATE group, MAX(r.rank_a), COUNT(r.k);\n\
fine: a = LOAD 'i' AS (k:int, v:chararray); r = RANK a BY k; f = FOREACH r GENERATE SUBSTRING(v, 0, k);\n\
fine: a = LOAD 'i' AS (k:int, g:{(x:int)}); r = RANK a BY k; f = FOREACH r GENERATE rank_a, FLATTEN(g);\n\
3 TypeMismatch: a = LOAD 'i' AS (k:int, v:chararray); r = RANK a BY k; f = FOREACH r GENERATE SUBSTRING(v, 0, rank_a);\n\
3 TypeMismatch: a = LOAD 'i' AS (k:int); r = RANK a BY k; f = FILTER r BY rank_a == 'a';\n\
3 UnknownField: a = LOAD 'i' AS (k:int); r = RANK a BY k; f = FILTER r BY rank_r > 1;\n\
3 UnknownField: Ab_1 = LOAD 'i' AS (k:int); r = RANK Ab_1 BY k; f = FILTER r BY rank_ab_1 > 1;\n\
3 PositionOut: a = LOAD 'i' AS (k:int); r = RANK a BY k; f = FILTER r BY $2 > 1;\n\
4 AmbiguousField: a = LOAD 'i' AS (k:int); a = RANK a BY k; a = RANK a BY k; f = FILTER a BY rank_a > 1;\n\
4 AmbiguousField: a = LOAD 'i' AS (k:int, rank_a:int); r = RANK a BY rank_a; f = FOREACH r GENERATE $0, $2; f = FILTER r BY rank_a > 1;";

#[test]
fn gives_columns(rt: HostRuntime) {
    for row in SCRIPTS.lines() {
        let (wanted, script) = row.split_once(": ").unwrap_or(("none", ""));
        let found = told(&rt, rt.alloc(), script);
        assert_eq!(rt; found.as_str(), wanted, "{script}");
    }
}

// A script on each line that doesn't begin with `- `, and behind it its nodes. What a rank stands with in a UNION becomes a long.
const PLANS: &str = "\
a = LOAD 'in' AS (k:int, v:chararray); r = RANK a BY k DESC; d = RANK a BY * DENSE; STORE r INTO 'o';\n\
- 1: Load { path: 'in', delim: Delim { byte: 9 }, columns: [Column { position: 0, kind: Int }, Column { position: 1, kind: Chararray }] }\n\
- 2: Rank { input: 0, keys: [SortKey { position: 0, dir: Desc }], dense: false }\n\
- 3: Rank { input: 0, keys: [SortKey { position: 0, dir: Asc }, SortKey { position: 1, dir: Asc }], dense: true }\n\
- 4: Store { input: 1, path: 'o', delim: Delim { byte: 9 } }\n\
a = LOAD 'in' AS (k:int, v:chararray); a = RANK a BY v, $0 DESC DENSE; f = FILTER a BY rank_a > 1L AND k < 9; b = RANK f BY v;\n\
- 1: Load { path: 'in', delim: Delim { byte: 9 }, columns: [Column { position: 0, kind: Int }, Column { position: 1, kind: Chararray }] }\n\
- 2: Rank { input: 0, keys: [SortKey { position: 1, dir: Asc }, SortKey { position: 0, dir: Desc }], dense: true }\n\
- 3: Filter { input: 1, cond: Chain { first: Compare { op: Gt, a: Field(0), b: Long(1) }, rest: [TLink { op: And, a: Compare { op: Lt, a: Field(1), b: Int(9) } }] } }\n\
- 4: Rank { input: 2, keys: [SortKey { position: 2, dir: Asc }], dense: false }\n\
a = LOAD 'in' AS (k:int); b = LOAD 'b' AS (n:int, k:int); r = RANK a BY k; u = UNION r, b;\n\
- 1: Load { path: 'in', delim: Delim { byte: 9 }, columns: [Column { position: 0, kind: Int }] }\n\
- 2: Load { path: 'b', delim: Delim { byte: 9 }, columns: [Column { position: 0, kind: Int }, Column { position: 1, kind: Int }] }\n\
- 3: Rank { input: 0, keys: [SortKey { position: 0, dir: Asc }], dense: false }\n\
- 4: Foreach { input: 1, block: Block { steps: [], items: [BlockItem { value: Cast { to: Long, a: Field(0) }, flatten: false, width: 1 }, BlockItem { value: Field(1), flatten: false, width: 1 }] } }\n\
- 4: Union { inputs: [2, 3] }\n";

#[test]
fn gives_the_nodes_of_ranks(rt: HostRuntime) {
    let found = shown_plans(&rt, rt.alloc(), PLANS);
    assert_eq!(rt; found.as_str(), PLANS);
}

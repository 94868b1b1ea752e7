//! The plans of worked scripts, node by node.
// Trees end by `drop`: one call is cheap to prove, and a tree that dies by name is taken apart variant by variant.
use crate::shared::{Answer, add, checked, node_shown};
use pig_plan::Plan;
use std::alloc::Global;
use std::process::Abort;

// A script on each line that doesn't begin with `- `, and behind it its nodes: the number of the statement, and the operator.
const PLANS: &str = "\
urls = LOAD 'u' USING PigStorage(',') AS (url, category:chararray, rank_of:int); good = FILTER urls BY rank_of > 2; groups = GROUP good BY category; big = FILTER groups BY COUNT(good) > 1; o = FOREACH big GENERATE group, SUM(good.rank_of); STORE o INTO 'out';\n\
- 1: Load { path: 'u', delim: Delim { byte: 44 }, columns: [Column { position: 0, kind: Bytearray }, Column { position: 1, kind: Chararray }, Column { position: 2, kind: Int }] }\n\
- 2: Filter { input: 0, cond: Compare { op: Gt, a: Field(2), b: Int(2) } }\n\
- 3: Group { inputs: [KeyedInput { input: 1, keys: [Field(1)], inner: false }] }\n\
- 4: Filter { input: 2, cond: Compare { op: Gt, a: Call { function: Count, args: [Field(1)] }, b: Cast { to: Long, a: Int(1) } } }\n\
- 5: Foreach { input: 3, block: Block { steps: [], items: [BlockItem { value: Field(0), flatten: false, width: 1 }, BlockItem { value: Call { function: Sum, args: [Project { a: Field(1), fields: [2], single: true }] }, flatten: false, width: 1 }] } }\n\
- 6: Store { input: 4, path: 'out', delim: Delim { byte: 9 } }\n\
a = LOAD 'in' AS (k:chararray, x:int); g = GROUP a BY k; o = FOREACH g GENERATE group, COUNT(a.x), COUNT_STAR(a.x), SUM(a.x), MIN(a.x);\n\
- 1: Load { path: 'in', delim: Delim { byte: 9 }, columns: [Column { position: 0, kind: Chararray }, Column { position: 1, kind: Int }] }\n\
- 2: Group { inputs: [KeyedInput { input: 0, keys: [Field(0)], inner: false }] }\n\
- 3: Foreach { input: 1, block: Block { steps: [], items: [BlockItem { value: Field(0), flatten: false, width: 1 }, BlockItem { value: Call { function: Count, args: [Project { a: Field(1), fields: [1], single: true }] }, flatten: false, width: 1 }, BlockItem { value: Call { function: CountStar, args: [Project { a: Field(1), fields: [1], single: true }] }, flatten: false, width: 1 }, BlockItem { value: Call { function: Sum, args: [Project { a: Field(1), fields: [1], single: true }] }, flatten: false, width: 1 }, BlockItem { value: Call { function: Min, args: [Project { a: Field(1), fields: [1], single: true }] }, flatten: false, width: 1 }] } }\n\
a = LOAD 'in' AS (a:int, b:int); o = FOREACH a GENERATE a+1, b/2, b%2, b/0, (long)a+1;\n\
- 1: Load { path: 'in', delim: Delim { byte: 9 }, columns: [Column { position: 0, kind: Int }, Column { position: 1, kind: Int }] }\n\
- 2: Foreach { input: 0, block: Block { steps: [], items: [BlockItem { value: Chain { first: Field(0), rest: [TLink { op: Add, a: Int(1) }] }, flatten: false, width: 1 }, BlockItem { value: Chain { first: Field(1), rest: [TLink { op: Div, a: Int(2) }] }, flatten: false, width: 1 }, BlockItem { value: Chain { first: Field(1), rest: [TLink { op: Rem, a: Int(2) }] }, flatten: false, width: 1 }, BlockItem { value: Chain { first: Field(1), rest: [TLink { op: Div, a: Int(0) }] }, flatten: false, width: 1 }, BlockItem { value: Chain { first: Cast { to: Long, a: Field(0) }, rest: [TLink { op: Add, a: Int(1) }] }, flatten: false, width: 1 }] } }\n\
a = LOAD 'in' AS (m:map[]); o = FOREACH a GENERATE (int)m#'a' + 1, m#'zz', (m#'b' == 'x' ? 'yes' : 'no');\n\
- 1: Load { path: 'in', delim: Delim { byte: 9 }, columns: [Column { position: 0, kind: Map(Bytearray) }] }\n\
- 2: Foreach { input: 0, block: Block { steps: [], items: [BlockItem { value: Chain { first: Cast { to: Int, a: Look { a: Field(0), key: 'a' } }, rest: [TLink { op: Add, a: Int(1) }] }, flatten: false, width: 1 }, BlockItem { value: Look { a: Field(0), key: 'zz' }, flatten: false, width: 1 }, BlockItem { value: Choose { cond: Compare { op: Eq, a: Cast { to: Chararray, a: Look { a: Field(0), key: 'b' } }, b: Chars('x') }, yes: Chars('yes'), no: Chars('no') }, flatten: false, width: 1 }] } }\n\
v = LOAD 'visits' AS (user:chararray, page:chararray, time:int); g = GROUP v BY user; c = FOREACH g GENERATE group, COUNT(v) AS n, SUM(v.time) AS t; o = ORDER c BY n DESC, $0; top = LIMIT o 10; STORE top INTO 'top';\n\
- 1: Load { path: 'visits', delim: Delim { byte: 9 }, columns: [Column { position: 0, kind: Chararray }, Column { position: 1, kind: Chararray }, Column { position: 2, kind: Int }] }\n\
- 2: Group { inputs: [KeyedInput { input: 0, keys: [Field(0)], inner: false }] }\n\
- 3: Foreach { input: 1, block: Block { steps: [], items: [BlockItem { value: Field(0), flatten: false, width: 1 }, BlockItem { value: Call { function: Count, args: [Field(1)] }, flatten: false, width: 1 }, BlockItem { value: Call { function: Sum, args: [Project { a: Field(1), fields: [2], single: true }] }, flatten: false, width: 1 }] } }\n\
- 4: Order { input: 2, keys: [SortKey { position: 1, dir: Desc }, SortKey { position: 0, dir: Asc }] }\n\
- 5: Limit { input: 3, count: 10 }\n\
- 6: Store { input: 4, path: 'top', delim: Delim { byte: 9 } }\n\
a = LOAD 'in' AS (line:chararray); w = FOREACH a GENERATE FLATTEN(TOKENIZE(line)) AS word; g = GROUP w BY word PARALLEL 2; c = FOREACH g GENERATE group AS word, COUNT(w) AS n; o = ORDER c BY n DESC, word; STORE o INTO 'out';\n\
- 1: Load { path: 'in', delim: Delim { byte: 9 }, columns: [Column { position: 0, kind: Chararray }] }\n\
- 2: Foreach { input: 0, block: Block { steps: [], items: [BlockItem { value: Call { function: Tokenize, args: [Field(0)] }, flatten: true, width: 1 }] } }\n\
- 3: Group { inputs: [KeyedInput { input: 1, keys: [Field(0)], inner: false }] }\n\
- 4: Foreach { input: 2, block: Block { steps: [], items: [BlockItem { value: Field(0), flatten: false, width: 1 }, BlockItem { value: Call { function: Count, args: [Field(1)] }, flatten: false, width: 1 }] } }\n\
- 5: Order { input: 3, keys: [SortKey { position: 1, dir: Desc }, SortKey { position: 0, dir: Asc }] }\n\
- 6: Store { input: 4, path: 'out', delim: Delim { byte: 9 } }\n\
a = LOAD 'a' AS (k:int, v:chararray); b = LOAD 'b' AS (k:int, v:chararray); g = GROUP a BY k; c = COGROUP a BY k, b BY k INNER; j = JOIN a BY k, b BY k; f = JOIN a BY k FULL, b BY k;\n\
- 1: Load { path: 'a', delim: Delim { byte: 9 }, columns: [Column { position: 0, kind: Int }, Column { position: 1, kind: Chararray }] }\n\
- 2: Load { path: 'b', delim: Delim { byte: 9 }, columns: [Column { position: 0, kind: Int }, Column { position: 1, kind: Chararray }] }\n\
- 3: Group { inputs: [KeyedInput { input: 0, keys: [Field(0)], inner: false }] }\n\
- 4: Group { inputs: [KeyedInput { input: 0, keys: [Field(0)], inner: false }, KeyedInput { input: 1, keys: [Field(0)], inner: true }] }\n\
- 5: Join { inputs: [KeyedInput { input: 0, keys: [Field(0)], inner: false }, KeyedInput { input: 1, keys: [Field(0)], inner: false }], side: Inner, replicated: false }\n\
- 6: Join { inputs: [KeyedInput { input: 0, keys: [Field(0)], inner: false }, KeyedInput { input: 1, keys: [Field(0)], inner: false }], side: Full, replicated: false }\n\
t = LOAD 'd/in/' USING PigStorage(',') AS (a:chararray, b:int);; g = GROUP t BY b; o = FOREACH g GENERATE group, COUNT(t); STORE o INTO '/out/' USING PigStorage('|');\n\
- 1: Load { path: 'd/in', delim: Delim { byte: 44 }, columns: [Column { position: 0, kind: Chararray }, Column { position: 1, kind: Int }] }\n\
- 3: Group { inputs: [KeyedInput { input: 0, keys: [Field(1)], inner: false }] }\n\
- 4: Foreach { input: 1, block: Block { steps: [], items: [BlockItem { value: Field(0), flatten: false, width: 1 }, BlockItem { value: Call { function: Count, args: [Field(1)] }, flatten: false, width: 1 }] } }\n\
- 5: Store { input: 2, path: '/out', delim: Delim { byte: 124 } }\n\
a = LOAD 'in' AS (x:int); l = LIMIT a 2; STORE l INTO 'p'; STORE l INTO 'q';\n\
- 1: Load { path: 'in', delim: Delim { byte: 9 }, columns: [Column { position: 0, kind: Int }] }\n\
- 2: Limit { input: 0, count: 2 }\n\
- 3: Store { input: 1, path: 'p', delim: Delim { byte: 9 } }\n\
- 4: Store { input: 1, path: 'q', delim: Delim { byte: 9 } }\n\
a = LOAD 'in' AS (k:chararray, n:int, s:chararray); g = GROUP a BY k; r = FOREACH g { o = ORDER a BY n; t = LIMIT o 1; GENERATE group, t, o.(n,s); };\n\
- 1: Load { path: 'in', delim: Delim { byte: 9 }, columns: [Column { position: 0, kind: Chararray }, Column { position: 1, kind: Int }, Column { position: 2, kind: Chararray }] }\n\
- 2: Group { inputs: [KeyedInput { input: 0, keys: [Field(0)], inner: false }] }\n\
- 3: Foreach { input: 1, block: Block { steps: [Order { from: Field(1), keys: [SortKey { position: 1, dir: Asc }] }, Limit { from: Local(0), count: 1 }], items: [BlockItem { value: Field(0), flatten: false, width: 1 }, BlockItem { value: Local(1), flatten: false, width: 1 }, BlockItem { value: Project { a: Local(0), fields: [1, 2], single: false }, flatten: false, width: 1 }] } }\n\
a = LOAD 'in' AS (k:int, a:{(x:int)}, b:{(y:int)}); o = FOREACH a GENERATE k, FLATTEN(a), FLATTEN(b);\n\
- 1: Load { path: 'in', delim: Delim { byte: 9 }, columns: [Column { position: 0, kind: Int }, Column { position: 1, kind: Bag([Int]) }, Column { position: 2, kind: Bag([Int]) }] }\n\
- 2: Foreach { input: 0, block: Block { steps: [], items: [BlockItem { value: Field(0), flatten: false, width: 1 }, BlockItem { value: Field(1), flatten: true, width: 1 }, BlockItem { value: Field(2), flatten: true, width: 1 }] } }\n\
a = LOAD 'in' AS (x:int); SPLIT a INTO a IF x > 2, c IF x < 2, d OTHERWISE; e = DISTINCT a; f = DISTINCT d;\n\
- 1: Load { path: 'in', delim: Delim { byte: 9 }, columns: [Column { position: 0, kind: Int }] }\n\
- 2: Filter { input: 0, cond: Compare { op: Gt, a: Field(0), b: Int(2) } }\n\
- 2: Filter { input: 0, cond: Compare { op: Lt, a: Field(0), b: Int(2) } }\n\
- 2: Filter { input: 0, cond: Not(Chain { first: Compare { op: Gt, a: Field(0), b: Int(2) }, rest: [TLink { op: Or, a: Compare { op: Lt, a: Field(0), b: Int(2) } }] }) }\n\
- 3: Distinct { input: 1 }\n\
- 4: Distinct { input: 3 }\n\
a = LOAD 'in' AS (x:int); SPLIT a INTO b IF x > 2, c OTHERWISE;\n\
- 1: Load { path: 'in', delim: Delim { byte: 9 }, columns: [Column { position: 0, kind: Int }] }\n\
- 2: Filter { input: 0, cond: Compare { op: Gt, a: Field(0), b: Int(2) } }\n\
- 2: Filter { input: 0, cond: Not(Compare { op: Gt, a: Field(0), b: Int(2) }) }\n\
a = LOAD 'a' AS (x:int); b = LOAD 'b' AS (x:long); u = UNION a, b; o = ORDER u BY x;\n\
- 1: Load { path: 'a', delim: Delim { byte: 9 }, columns: [Column { position: 0, kind: Int }] }\n\
- 2: Load { path: 'b', delim: Delim { byte: 9 }, columns: [Column { position: 0, kind: Long }] }\n\
- 3: Foreach { input: 0, block: Block { steps: [], items: [BlockItem { value: Cast { to: Long, a: Field(0) }, flatten: false, width: 1 }] } }\n\
- 3: Union { inputs: [2, 1] }\n\
- 4: Order { input: 3, keys: [SortKey { position: 0, dir: Asc }] }\n\
a = LOAD 'a' AS (x:int, y:int); b = LOAD 'b' AS (x:int, y:long); u = UNION b, a, a; u = UNION u, b;\n\
- 1: Load { path: 'a', delim: Delim { byte: 9 }, columns: [Column { position: 0, kind: Int }, Column { position: 1, kind: Int }] }\n\
- 2: Load { path: 'b', delim: Delim { byte: 9 }, columns: [Column { position: 0, kind: Int }, Column { position: 1, kind: Long }] }\n\
- 3: Foreach { input: 0, block: Block { steps: [], items: [BlockItem { value: Field(0), flatten: false, width: 1 }, BlockItem { value: Cast { to: Long, a: Field(1) }, flatten: false, width: 1 }] } }\n\
- 3: Foreach { input: 0, block: Block { steps: [], items: [BlockItem { value: Field(0), flatten: false, width: 1 }, BlockItem { value: Cast { to: Long, a: Field(1) }, flatten: false, width: 1 }] } }\n\
- 3: Union { inputs: [1, 2, 3] }\n\
- 4: Union { inputs: [4, 1] }\n\
a = LOAD 'a' AS (k:int, v:int); b = LOAD 'b' AS (k:int, w:int); j = JOIN a BY k LEFT, b BY k; f = FILTER j BY v > 1 AND w > 2; STORE f INTO 'o';\n\
- 1: Load { path: 'a', delim: Delim { byte: 9 }, columns: [Column { position: 0, kind: Int }, Column { position: 1, kind: Int }] }\n\
- 2: Load { path: 'b', delim: Delim { byte: 9 }, columns: [Column { position: 0, kind: Int }, Column { position: 1, kind: Int }] }\n\
- 3: Join { inputs: [KeyedInput { input: 0, keys: [Field(0)], inner: false }, KeyedInput { input: 1, keys: [Field(0)], inner: false }], side: Left, replicated: false }\n\
- 4: Filter { input: 2, cond: Chain { first: Compare { op: Gt, a: Field(1), b: Int(1) }, rest: [TLink { op: And, a: Compare { op: Gt, a: Field(3), b: Int(2) } }] } }\n\
- 5: Store { input: 3, path: 'o', delim: Delim { byte: 9 } }\n\
a = LOAD 'a' AS (k:int); b = LOAD 'b' AS (k:long); j = JOIN a BY k LEFT, b BY k USING 'replicated'; i = JOIN b BY k, b BY k USING 'replicated';\n\
- 1: Load { path: 'a', delim: Delim { byte: 9 }, columns: [Column { position: 0, kind: Int }] }\n\
- 2: Load { path: 'b', delim: Delim { byte: 9 }, columns: [Column { position: 0, kind: Long }] }\n\
- 3: Join { inputs: [KeyedInput { input: 0, keys: [Cast { to: Long, a: Field(0) }], inner: false }, KeyedInput { input: 1, keys: [Field(0)], inner: false }], side: Left, replicated: true }\n\
- 4: Join { inputs: [KeyedInput { input: 1, keys: [Field(0)], inner: false }, KeyedInput { input: 1, keys: [Field(0)], inner: false }], side: Inner, replicated: true }\n\
a = LOAD 'in' USING PigStorage('\\u0000') AS (x:int); STORE a INTO 'o' USING PigStorage('\\u007f');\n\
- 1: Load { path: 'in', delim: Delim { byte: 0 }, columns: [Column { position: 0, kind: Int }] }\n\
- 2: Store { input: 0, path: 'o', delim: Delim { byte: 127 } }\n";

// Adds the script and the nodes of its plan, as the table has them.
fn add_shown<R: Abort>(rt: &R, alloc: Global, text: &mut String, script: &str) {
    add(rt, text, script);
    add(rt, text, "\n");
    let found = checked(rt, alloc, script);
    match &found {
        Answer::Plan(plan) => add_nodes(rt, alloc, text, plan),
        _ => add(rt, text, "no plan\n"),
    }
    drop(found);
}

fn add_nodes<R: Abort>(rt: &R, alloc: Global, text: &mut String, plan: &Plan) {
    for node in plan.nodes().as_slice() {
        let shown = node_shown(rt, alloc, node);
        add(rt, text, "- ");
        add(rt, text, shown.as_str());
        add(rt, text, "\n");
    }
}

/// The scripts of a table, each with the nodes of its plan.
pub fn shown_plans<R: Abort>(rt: &R, alloc: Global, table: &str) -> String {
    let mut found = String::new(alloc);
    for line in table.lines() {
        if !line.starts_with("- ") {
            add_shown(rt, alloc, &mut found, line);
        }
    }
    found
}

#[test]
fn gives_the_nodes_of_scripts(rt: HostRuntime) {
    let found = shown_plans(&rt, rt.alloc(), PLANS);
    for (found, wanted) in found.lines().zip(PLANS.lines()) {
        assert_eq!(rt; found, wanted);
    }
    assert_eq!(rt; found.as_str(), PLANS);
}

//! Each kind of refusal, at the sorts of places where it can stand: the statement and the kind by hand, and scripts that have a plan.
use crate::shared::{add, copied, told};
use std::alloc::Global;
use std::process::Abort;

// A line for each script: the number of its statement and the kind that is due, or `fine`.
const SCRIPTS: &str = "\
1 UnknownAlias: x = FILTER nope BY $0 == 1; y = LOAD 'no' AS (a:int); STORE y INTO 'o';\n\
2 UnknownAlias: a = LOAD 'i' AS (x:int); STORE b INTO 'o';\n\
2 UnknownAlias: a = LOAD 'i' AS (x:int); SPLIT b INTO c IF zz == 1;\n\
3 UnknownAlias: a = LOAD 'i' AS (x:int);; j = JOIN a BY x, A BY x;\n\
2 UnknownField: a = LOAD 'i' AS (x:int); b = FILTER a BY y == 1;\n\
2 UnknownField: a = LOAD 'i' AS (x:int); b = ORDER a BY y;\n\
3 UnknownField: a = LOAD 'i' AS (x:int); a = FOREACH a GENERATE x AS y; b = FILTER a BY x == 1;\n\
4 AmbiguousField: a = LOAD 'a' AS (k:int); b = LOAD 'b' AS (k:int); j = JOIN a BY k, b BY k; f = FILTER j BY k == 1;\n\
2 PositionOut: a = LOAD 'i' AS (x:int); b = ORDER a BY $1;\n\
2 PositionOut: a = LOAD 'i' AS (x:int); SPLIT a INTO b IF $0 == 1, c IF $1 == 1;\n\
2 TypeMismatch: a = LOAD 'i' AS (x:int); b = FILTER a BY x;\n\
2 TypeMismatch: a = LOAD 'i' AS (x:int); SPLIT a INTO b IF x == 'k';\n\
3 BadKey: a = LOAD 'i' AS (x:int); g = GROUP a BY x; o = ORDER g BY a;\n\
3 BadKey: a = LOAD 'i' AS (x:int); g = GROUP a BY x; o = ORDER g BY *;\n\
3 BadKey: a = LOAD 'i' AS (x:int); g = GROUP a BY x; h = GROUP g BY a;\n\
1 FloatType: y = LOAD 'i' AS (a:float);\n\
1 FloatType: y = LOAD 'i' AS (a:{(b:double)});\n\
2 FloatType: a = LOAD 'i' AS (x:int); b = FILTER a BY x > 1.5;\n\
1 UnknownFunction: a = LOAD 'i' USING pigstorage(',') AS (x:int);\n\
2 UnknownFunction: a = LOAD 'i' AS (x:int); STORE a INTO 'o' USING BinStorage('a', 'b');\n\
1 WrongArguments: a = LOAD 'i' USING PigStorage('ab') AS (x:int);\n\
2 WrongArguments: a = LOAD 'i' AS (x:int); STORE a INTO 'o' USING PigStorage('a', 'b');\n\
1 WrongArguments: a = LOAD 'i' USING PigStorage('\\u000d') AS (x:int);\n\
2 WrongArguments: a = LOAD 'i' AS (x:int); STORE a INTO 'o' USING PigStorage('\\u0080');\n\
3 SchemaMismatch: a = LOAD 'a' AS (x:int); b = LOAD 'b' AS (x:chararray); u = UNION a, b;\n\
2 SchemaMismatch: a = LOAD 'a' AS (x:int); b = FOREACH a GENERATE x AS (y, z);\n\
3 OutputTwice: a = LOAD 'i' AS (x:int); STORE a INTO 'o'; STORE a INTO 'o/';\n\
3 OutputTwice: a = LOAD 'i' AS (x:int); STORE a INTO 'o/p'; STORE a INTO 'o';\n\
3 OutputTwice: a = LOAD 'i' AS (x:int); STORE a INTO 'o'; STORE a INTO 'o/p/q';\n\
2 SelfLoad: a = LOAD 'i' AS (x:int); STORE a INTO 'i';\n\
2 SelfLoad: a = LOAD 'd/i/' AS (x:int); STORE a INTO 'd';\n\
3 SelfLoad: a = LOAD 'i' AS (x:int); STORE a INTO 'o'; b = LOAD 'o/part' AS (x:int);\n\
1 Compressed: y = LOAD 'i.gz' AS (a:int);\n\
2 Compressed: a = LOAD 'i' AS (x:int); STORE a INTO 'o.bz2/';\n\
1 Compressed: y = LOAD 'd/i.lzo' AS (a:int);\n\
2 Compressed: a = LOAD 'i' AS (x:int); STORE a INTO 'o.zst';\n\
1 Unsupported: a = LOAD '' AS (x:int);\n\
1 Unsupported: a = LOAD '/' AS (x:int);\n\
1 Unsupported: a = LOAD 'd//i' AS (x:int);\n\
1 Unsupported: a = LOAD 'd/./i' AS (x:int);\n\
1 Unsupported: a = LOAD '../i' AS (x:int);\n\
1 Unsupported: a = LOAD 'i*' AS (x:int);\n\
2 Unsupported: a = LOAD 'i' AS (x:int); STORE a INTO 'o/{p}';\n\
3 Unsupported: a = LOAD 'a' AS (x:int); b = LOAD 'b' AS (x:int); u = UNION ONSCHEMA a, b;\n\
2 Unsupported: a = LOAD 'a' AS (x:int); g = GROUP a BY x USING 'merge';\n\
2 Unsupported: a = LOAD 'a' AS (x:int); DUMP a;\n\
fine: a = LOAD 'o' AS (x:int); STORE a INTO '/o'; STORE a INTO 'op'; b = LOAD 'o/' AS (x:int);\n\
fine: a = LOAD '/d/i.gzip' USING PigStorage() AS (x:int); STORE a INTO 'd/o' USING PigStorage('\\t');\n\
fine: a = LOAD 'i' AS (x:int); b = DISTINCT a; a = LIMIT b 1; c = FILTER b BY x == 1; SPLIT b INTO d IF x == 1, e OTHERWISE; u = UNION d, e; g = GROUP c BY x, a BY x; STORE u INTO 'o'; STORE g INTO 'p';\n\
6 UnknownField: a = LOAD 'i' AS (x:int); b = ORDER a BY x; a = RANK b BY x; b = FOREACH a GENERATE rank_b; ASSERT a BY x > 0; c = FILTER b BY x == 1;\n\
fine: ;; a = LOAD 'i' AS (x:int);";

#[test]
fn names_the_first_statement_and_a_kind(rt: HostRuntime) {
    for row in SCRIPTS.lines() {
        let (wanted, script) = row.split_once(": ").unwrap_or(("none", ""));
        let found = told(&rt, rt.alloc(), script);
        assert_eq!(rt; found.as_str(), wanted, "{script}");
    }
}

// A LOAD of so many columns.
fn wide_load<R: Abort>(rt: &R, alloc: Global, columns: usize) -> String {
    let mut script = copied(rt, alloc, "a = LOAD 'i' AS (x");
    for _ in 1..columns {
        add(rt, &mut script, ", x");
    }
    add(rt, &mut script, ");");
    script
}

// Such a LOAD, and its rows behind their ranks.
fn wide_rank<R: Abort>(rt: &R, alloc: Global, columns: usize) -> String {
    let mut script = wide_load(rt, alloc, columns);
    add(rt, &mut script, "r = RANK a BY $0;");
    script
}

// A tuple around the field, so many times.
fn deep_tuple<R: Abort>(rt: &R, alloc: Global, depth: usize) -> String {
    let mut script = copied(rt, alloc, "a = LOAD 'i' AS (x:int);");
    for _ in 0..depth {
        add(rt, &mut script, "a = FOREACH a GENERATE TOTUPLE($0);");
    }
    script
}

// Whether this is told of a script.
fn tells<R: Abort>(rt: &R, alloc: Global, script: &String, wanted: &str) -> bool {
    let found = told(rt, alloc, script.as_str());
    found.as_str() == wanted
}

#[test]
fn keeps_the_limits(rt: HostRuntime) {
    let alloc = rt.alloc();
    assert!(rt; tells(&rt, alloc, &wide_load(&rt, alloc, 512), "fine"));
    assert!(rt; tells(&rt, alloc, &wide_load(&rt, alloc, 513), "1 TooWide"));
    assert!(rt; tells(&rt, alloc, &wide_rank(&rt, alloc, 511), "fine"));
    assert!(rt; tells(&rt, alloc, &wide_rank(&rt, alloc, 512), "2 TooWide"));
    assert!(rt; tells(&rt, alloc, &deep_tuple(&rt, alloc, 63), "fine"));
    assert!(rt; tells(&rt, alloc, &deep_tuple(&rt, alloc, 64), "65 TooDeep"));
}

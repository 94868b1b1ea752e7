// Scripts, and the nodes of their plans once these are pruned. Where memory is wanting the process
// ends: that drops nothing, so its proof is short. Trees end by `drop`.
use pig_explain::explain;
use pig_plan::Plan;
use pig_prune::prune;
use pig_script_tests::plan_of;
use pig_shown_tests::shown_nodes;
use std::alloc::Global;
use std::process::Abort;

/// Adds to a text.
fn add<R: Abort>(rt: &R, into: &mut String, text: &str) {
    into.push_str(text).expect(rt, "memory");
}

/// A line for each node that is printed of a plan, and one more where others are there.
fn nodes_shown<R: Abort>(rt: &R, alloc: Global, plan: &Plan) -> String {
    let mut bytes = Vec::new(alloc);
    explain(plan, plan, &mut bytes).expect(rt, "memory");
    let printed = str::from_utf8(bytes.as_slice()).unwrap_or("");
    shown_nodes(alloc, printed, plan.nodes().len()).expect(rt, "memory")
}

/// Adds a script and the nodes of its pruned plan.
fn add_pruned<R: Abort>(rt: &R, alloc: Global, into: &mut String, script: &str) {
    add(rt, into, script);
    add(rt, into, "\n");
    let Some(plan) = plan_of(alloc, script) else {
        add(rt, into, "no plan\n");
        return;
    };
    let pruned = prune(alloc, plan).expect(rt, "memory");
    let shown = nodes_shown(rt, alloc, &pruned);
    drop(pruned);
    add(rt, into, shown.as_str());
}

// A script on each line that doesn't begin with `- `, and behind it the nodes of its pruned plan:
// what COUNT counts by, a bag's rows alone, columns of a bag, whole fields, nothing at all, items,
// an unused FLATTEN, nested steps, unused keys of joins, dead nodes, GROUP of GROUP, two STOREs, and
// operators that look at whole rows.
const PRUNED: &str = "\
t = LOAD 't' AS (a:chararray, b:int, c:int, d:int); g = GROUP t BY b; r = FOREACH g GENERATE group, COUNT(t), SUM(t.d); STORE r INTO 'o';
- 0 LOAD 't' 09 0:chararray 1:int 3:int
- 1 GROUP 0 BY $1
- 2 FOREACH 1 $0, COUNT($1), SUM($1.2)
- 3 STORE 2 'o' 09
t = LOAD 't' AS (a:chararray, b:int, c:int); g = GROUP t BY b; r = FOREACH g GENERATE group, COUNT(t); STORE r INTO 'o';
- 0 LOAD 't' 09 0:chararray 1:int
- 1 GROUP 0 BY $1
- 2 FOREACH 1 $0, COUNT($1)
- 3 STORE 2 'o' 09
t = LOAD 't' AS (a:chararray, b:int, c:int); g = GROUP t BY b; r = FOREACH g GENERATE COUNT_STAR(t), SIZE(t); STORE r INTO 'o';
- 0 LOAD 't' 09 1:int
- 1 GROUP 0 BY $0
- 2 FOREACH 1 COUNT_STAR($1), SIZE($1)
- 3 STORE 2 'o' 09
t = LOAD 't' AS (a:chararray, b:int, c:int); g = GROUP t BY b; f = FILTER g BY NOT IsEmpty(t); r = FOREACH f GENERATE group; STORE r INTO 'o';
- 0 LOAD 't' 09 1:int
- 1 GROUP 0 BY $0
- 2 FILTER 1 (NOT IsEmpty($1))
- 3 FOREACH 2 $0
- 4 STORE 3 'o' 09
t = LOAD 't' AS (a:chararray, b:int, c:int, d:int); f = FILTER t BY d > 1; r = FOREACH f GENERATE b; STORE r INTO 'o';
- 0 LOAD 't' 09 1:int 3:int
- 1 FILTER 0 ($1 > 1)
- 2 FOREACH 1 $0
- 3 STORE 2 'o' 09
t = LOAD 't' AS (a:chararray, b:int, c:int, d:int); g = GROUP t BY b; r = FOREACH g GENERATE group, t.(d, c); STORE r INTO 'o';
- 0 LOAD 't' 09 1:int 2:int 3:int
- 1 GROUP 0 BY $0
- 2 FOREACH 1 $0, $1.(2,1)
- 3 STORE 2 'o' 09
t = LOAD 't' AS (a:chararray, b:int); r = FOREACH t GENERATE 1; STORE r INTO 'o';
- 0 LOAD 't' 09 0:chararray
- 1 FOREACH 0 1
- 2 STORE 1 'o' 09
t = LOAD 't' AS (a:chararray, b:int, c:int); s = FOREACH t GENERATE a, b, c; r = FOREACH s GENERATE $2; STORE r INTO 'o';
- 0 LOAD 't' 09 2:int
- 1 FOREACH 0 $0
- 2 FOREACH 1 $0
- 3 STORE 2 'o' 09
t = LOAD 't' AS (a:chararray, b:int, c:{(x:int)}); s = FOREACH t GENERATE FLATTEN(c), a, b; r = FOREACH s GENERATE b; STORE r INTO 'o';
- 0 LOAD 't' 09 1:int 2:bag{int}
- 1 FOREACH 0 FLATTEN($1), $0
- 2 FOREACH 1 $1
- 3 STORE 2 'o' 09
t = LOAD 't' AS (a:chararray, b:int, c:int); g = GROUP t BY b; r = FOREACH g { d = DISTINCT t.c; GENERATE group, COUNT(d); }; STORE r INTO 'o';
- 0 LOAD 't' 09 0:chararray 1:int 2:int
- 1 GROUP 0 BY $1
- 2 FOREACH 1 @0 = DISTINCT $1.2; $0, COUNT(@0)
- 3 STORE 2 'o' 09
a = LOAD 'a' AS (k:int, v:int, w:int); b = LOAD 'b' AS (k:int, x:int, y:int); j = JOIN a BY k, b BY k; r = FOREACH j GENERATE v, y; STORE r INTO 'o';
- 0 LOAD 'a' 09 0:int 1:int
- 1 LOAD 'b' 09 0:int 2:int
- 2 JOIN 0 BY $0; 1 BY $0
- 3 FOREACH 2 $1, $3
- 4 STORE 3 'o' 09
a = LOAD 'a' AS (k:int, v:int, w:int); b = LOAD 'b' AS (l:int, x:int); j = JOIN a BY k LEFT, b BY l; r = FOREACH j GENERATE w, l; STORE r INTO 'o';
- 0 LOAD 'a' 09 0:int 2:int
- 1 LOAD 'b' 09 0:int
- 2 JOIN 0 BY $0 LEFT; 1 BY $0
- 3 FOREACH 2 $1, $2
- 4 STORE 3 'o' 09
a = LOAD 'a' AS (k:int,v:int); b = LOAD 'b' AS (k:int,x:int,y:int); c = COGROUP a BY k, b BY k; r = FOREACH c GENERATE $0, SUM(b.y); STORE r INTO 'o';
- 0 LOAD 'a' 09 0:int
- 1 LOAD 'b' 09 0:int 2:int
- 2 GROUP 0 BY $0; 1 BY $0
- 3 FOREACH 2 $0, SUM($2.1)
- 4 STORE 3 'o' 09
t = LOAD 't' AS (a:chararray, b:int, c:int); g = GROUP t ALL; r = FOREACH g GENERATE SUM(t.c); STORE r INTO 'o';
- 0 LOAD 't' 09 2:int
- 1 GROUP 0 ALL
- 2 FOREACH 1 SUM($1.0)
- 3 STORE 2 'o' 09
t = LOAD 't' AS (a:chararray, b:int, c:int); x = ORDER t BY c; y = FILTER x BY c > 0; r = FOREACH t GENERATE b; STORE r INTO 'o';
- 0 LOAD 't' 09 1:int
- 1 FOREACH 0 $0
- 2 STORE 1 'o' 09
t = LOAD 't' AS (a:chararray, b:int, c:int); g = GROUP t BY b; h = GROUP g BY group; r = FOREACH h GENERATE COUNT(g); STORE r INTO 'o';
- 0 LOAD 't' 09 1:int
- 1 GROUP 0 BY $0
- 2 GROUP 1 BY $0
- 3 FOREACH 2 COUNT($1)
- 4 STORE 3 'o' 09
t = LOAD 't' AS (a:chararray, b:int, c:int); g = GROUP t BY b; h = GROUP g BY group; r = FOREACH h GENERATE g.t; STORE r INTO 'o';
- 0 LOAD 't' 09 0:chararray 1:int 2:int
- 1 GROUP 0 BY $1
- 2 GROUP 1 BY $0
- 3 FOREACH 2 $1.1
- 4 STORE 3 'o' 09
t = LOAD 't' AS (a:chararray, b:int, c:int); x = FOREACH t GENERATE a; y = FOREACH t GENERATE c; STORE x INTO 'o'; STORE y INTO 'p';
- 0 LOAD 't' 09 0:chararray 2:int
- 1 FOREACH 0 $0
- 2 STORE 1 'o' 09
- 3 FOREACH 0 $1
- 4 STORE 3 'p' 09
t = LOAD 't' AS (a:chararray, b:int, c:int); d = DISTINCT t; r = FOREACH d GENERATE a; STORE r INTO 'o';
- 0 LOAD 't' 09 0:chararray 1:int 2:int
- 1 DISTINCT 0
- 2 FOREACH 1 $0
- 3 STORE 2 'o' 09
t = LOAD 't' AS (a:chararray, b:int, c:int); s = FOREACH t GENERATE a, c; d = DISTINCT s; STORE d INTO 'o';
- 0 LOAD 't' 09 0:chararray 2:int
- 1 FOREACH 0 $0, $1
- 2 DISTINCT 1
- 3 STORE 2 'o' 09
t = LOAD 't' AS (a:chararray, b:int, c:int); l = LIMIT t 2; r = FOREACH l GENERATE c; STORE r INTO 'o';
- 0 LOAD 't' 09 0:chararray 1:int 2:int
- 1 LIMIT 0 2
- 2 FOREACH 1 $2
- 3 STORE 2 'o' 09
t = LOAD 't' AS (a:chararray, b:int, c:int); u = UNION t, t; o = ORDER u BY b; STORE o INTO 'o';
- 0 LOAD 't' 09 0:chararray 1:int 2:int
- 1 UNION 0 0
- 2 ORDER 1 $1 ASC
- 3 STORE 2 'o' 09
";

#[test]
fn what_is_left_of_plans(rt: HostRuntime) {
    let mut found = String::new(rt.alloc());
    for line in PRUNED.lines() {
        if !line.starts_with("- ") {
            add_pruned(&rt, rt.alloc(), &mut found, line);
        }
    }
    for (found, wanted) in found.lines().zip(PRUNED.lines()) {
        assert_eq!(rt; found, wanted);
    }
    assert_eq!(rt; found.as_str(), PRUNED);
}

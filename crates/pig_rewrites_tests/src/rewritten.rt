// Scripts, and the nodes of their plans once these are rewritten. Where memory is wanting the
// process ends: that drops nothing, so its proof is short.
ghost use Rattle.std.specs.Prelude.{◌≡◌, IsTrue, true};
ghost use Rattle.pig_plan.specs.Plans.{plan_of};
ghost use Rattle.pig_plan.specs.Valid.{in_order};
ghost use Rattle.pig_rewrites.specs.Alike.{are_apart, is_stored_in};

use pig_explain::explain;
use pig_plan::{Node, Plan};
use pig_reach::{Store, stores};
use pig_rewrites::rewrite;
use pig_script_tests::plan_of;
use pig_shown_tests::shown_nodes;
use pig_value::Text;
use std::alloc::Global;
use std::process::Abort;

/// Adds to a text.
fn add<R: Abort>(rt: &R, into: &mut String, text: &str) {
    into.push_str(text).expect(rt, "memory");
}

fn is_stored_in(dir: &Text, stores: &[Store]) -> bool
    ensures { result ≡ is_stored_in dir.now stores.now }
{
    let mut left = stores;
    while let [store, rest @ ..] = left {
        if store.dir.as_bytes() == dir.as_bytes() {
            return true;
        }
        left = rest;
    }
    false
}

/// Whether no two STOREs have one directory.
fn are_apart(stores: &[Store]) -> bool
    ensures { IsTrue result → are_apart stores.now ≡ true }
{
    let mut left = stores;
    while let [store, rest @ ..] = left {
        if is_stored_in(&store.dir, rest) {
            return false;
        }
        left = rest;
    }
    true
}

/// Whether no node has an earlier statement than one before it.
fn stand_in_order(nodes: &[Node]) -> bool
    ensures { IsTrue result → in_order (plan_of nodes.now) ≡ true }
{
    let mut left = nodes;
    let mut latest: u32 = 0;
    while let [node, rest @ ..] = left {
        if !(latest <= node.statement) {
            return false;
        }
        latest = node.statement;
        left = rest;
    }
    true
}

/// The rewritten plan of a script, where it has one.
fn rewritten(alloc: Global, script: &str) -> Option<Plan> {
    let plan = plan_of(alloc, script)?;
    let stores = stores(alloc, &plan).ok()?;
    if !are_apart(stores.as_slice()) || !stand_in_order(plan.nodes().as_slice()) {
        return None;
    }
    let made = rewrite(alloc, &plan);
    drop((plan, stores));
    made.ok()
}

/// A line for each node that is printed of a plan, and one more where others are there.
fn nodes_shown<R: Abort>(rt: &R, alloc: Global, plan: &Plan) -> String {
    let mut bytes = Vec::new(alloc);
    explain(plan, plan, &mut bytes).expect(rt, "memory");
    let printed = str::from_utf8(bytes.as_slice()).unwrap_or("");
    shown_nodes(alloc, printed, plan.nodes().len()).expect(rt, "memory")
}

/// Adds a script and the nodes of its rewritten plan.
fn add_rewritten<R: Abort>(rt: &R, alloc: Global, into: &mut String, script: &str) {
    add(rt, into, script);
    add(rt, into, "\n");
    let Some(plan) = rewritten(alloc, script) else {
        add(rt, into, "- no plan\n");
        return;
    };
    let shown = nodes_shown(rt, alloc, &plan);
    drop(plan);
    add(rt, into, shown.as_str());
}

// A script on each line that doesn't begin with `- `, and behind it the nodes of its rewritten plan:
// FILTERs that do the same and become one; so over a DISTINCT, which one node reads then, so that it
// is passed; a condition that moves, so that columns go; one that passes a GROUP; two that become
// one, and dead nodes; JOINs that do the same; ASSERTs that do, and one with another message; bare
// LIMITs, which stay apart; nothing to do.
const REWRITTEN: &str = "\
a = LOAD 't' AS (k:int, v:int); b = LOAD 't' AS (k:int, v:int); x = FILTER a BY k > 1; y = FILTER b BY k > 1; STORE x INTO 'o'; STORE y INTO 'p';
- 0 LOAD 't' 09 0:int 1:int
- 1 FILTER 0 ($0 > 1)
- 2 STORE 1 'o' 09
- 3 STORE 1 'p' 09
t = LOAD 't' AS (k:int, v:int); d = DISTINCT t; x = FILTER d BY k > 1; y = FILTER d BY k > 1; STORE x INTO 'o'; STORE y INTO 'p';
- 0 LOAD 't' 09 0:int 1:int
- 1 FILTER 0 ($0 > 1)
- 2 DISTINCT 1
- 3 STORE 2 'o' 09
- 4 STORE 2 'p' 09
t = LOAD 't' AS (a:chararray, b:int, c:int); s = FOREACH t GENERATE a, b, c; f = FILTER s BY b > 1; r = FOREACH f GENERATE a; STORE r INTO 'o';
- 0 LOAD 't' 09 0:chararray 1:int
- 1 FILTER 0 ($1 > 1)
- 2 FOREACH 1 $0
- 3 FOREACH 2 $0
- 4 STORE 3 'o' 09
t = LOAD 't' AS (a:chararray, b:int, c:int); g = GROUP t BY b; f = FILTER g BY group > 1; r = FOREACH f GENERATE group, COUNT(t); STORE r INTO 'o';
- 0 LOAD 't' 09 0:chararray 1:int
- 1 FILTER 0 ($1 > 1)
- 2 GROUP 1 BY $1
- 3 FOREACH 2 $0, COUNT($1)
- 4 STORE 3 'o' 09
t = LOAD 't' AS (a:int, b:int); x = FILTER t BY a > 1; y = FILTER x BY b > 2; z = ORDER y BY a; w = DISTINCT t; STORE z INTO 'o';
- 0 LOAD 't' 09 0:int 1:int
- 1 FILTER 0 (($0 > 1) AND ($1 > 2))
- 2 ORDER 1 $0 ASC
- 3 STORE 2 'o' 09
a = LOAD 'a' AS (k:int, v:int); b = LOAD 'b' AS (l:int, w:int); i = JOIN a BY k, b BY l; j = JOIN a BY k, b BY l; STORE i INTO 'o'; STORE j INTO 'p';
- 0 LOAD 'a' 09 0:int 1:int
- 1 LOAD 'b' 09 0:int 1:int
- 2 JOIN 0 BY $0; 1 BY $0
- 3 STORE 2 'o' 09
- 4 STORE 2 'p' 09
a = LOAD 't' AS (k:int); ASSERT a BY k > 0, 'm'; b = LOAD 't' AS (k:int); ASSERT b BY k > 0, 'm'; STORE a INTO 'o'; STORE b INTO 'p';
- 0 LOAD 't' 09 0:int
- 1 ASSERT 0 ($0 > 0)
- 2 STORE 1 'o' 09
- 3 STORE 1 'p' 09
a = LOAD 't' AS (k:int); ASSERT a BY k > 0, 'm'; b = LOAD 't' AS (k:int); ASSERT b BY k > 0; STORE a INTO 'o'; STORE b INTO 'p';
- 0 LOAD 't' 09 0:int
- 1 ASSERT 0 ($0 > 0)
- 2 STORE 1 'o' 09
- 3 ASSERT 0 ($0 > 0)
- 4 STORE 3 'p' 09
t = LOAD 't' AS (a:int, b:int); l = LIMIT t 2; m = LIMIT t 2; STORE l INTO 'o'; STORE m INTO 'p';
- 0 LOAD 't' 09 0:int 1:int
- 1 LIMIT 0 2
- 2 STORE 1 'o' 09
- 3 LIMIT 0 2
- 4 STORE 3 'p' 09
t = LOAD 't' USING PigStorage(',') AS (a:int); d = DISTINCT t; STORE d INTO 'o' USING PigStorage(';'); STORE t INTO 'p';
- 0 LOAD 't' 2c 0:int
- 1 DISTINCT 0
- 2 STORE 1 'o' 3b
- 3 STORE 0 'p' 09
";

#[test]
fn plans_as_they_are_cut(rt: HostRuntime) {
    let mut found = String::new(rt.alloc());
    for line in REWRITTEN.lines() {
        if !line.starts_with("- ") {
            add_rewritten(&rt, rt.alloc(), &mut found, line);
        }
    }
    for (found, wanted) in found.lines().zip(REWRITTEN.lines()) {
        assert_eq!(rt; found, wanted);
    }
    assert_eq!(rt; found.as_str(), REWRITTEN);
}

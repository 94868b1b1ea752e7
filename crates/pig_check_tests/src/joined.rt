//! Operators over several relations: each kind of refusal of their inputs and keys, and many inputs.
use crate::shared::{add, copied, third_is};
use std::alloc::Global;
use std::process::Abort;

// Two relations of four fields; what is tried is the third statement.
const BEFORE: &str =
    "a = LOAD 'a' AS (k:int, l:long, s:chararray, g:{(x:int)}); b = LOAD 'b' AS (k:int, l:long, s:chararray, g:{(x:int)}); y = ";

// A line for each operator: the kind that is due, or `fine`.
const OPERATORS: &str = "\
fine: COGROUP a BY k, b BY l;\n\
fine: COGROUP a BY (k, s) INNER, b BY (l, s);\n\
fine: JOIN a BY (k, s), b BY (l, s);\n\
fine: JOIN a BY k + 1 LEFT, b BY $0;\n\
fine: JOIN a BY k, b BY k, a BY l USING 'replicated';\n\
fine: JOIN a BY k LEFT OUTER, b BY k USING 'replicated' PARALLEL 2;\n\
fine: GROUP a ALL;\n\
fine: UNION a, b, a;\n\
SchemaMismatch: COGROUP a BY (k, l), b BY k;\n\
SchemaMismatch: JOIN a BY k, b BY (k, s);\n\
BadKey: COGROUP a BY g, b BY g;\n\
BadKey: JOIN a BY k, b BY g;\n\
UnknownField: JOIN a BY k, b BY zz;\n\
PositionOut: COGROUP a BY $4, b BY k;\n\
UnknownAlias: JOIN a BY k, zz BY k;\n\
UnknownAlias: COGROUP zz BY k, a BY k;\n\
UnknownAlias: GROUP zz ALL;\n\
UnknownAlias: UNION a, zz;\n\
Unsupported: JOIN a BY k LEFT, b BY k, a BY k;\n\
Unsupported: JOIN a BY k RIGHT, b BY k USING 'replicated';\n\
Unsupported: JOIN a BY k FULL OUTER, b BY k USING 'replicated';\n\
Unsupported: JOIN a BY k LEFT, b BY k, a BY k USING 'replicated';\n\
Unsupported: JOIN a BY k, b BY k USING 'Replicated';\n\
Unsupported: JOIN a BY k, b BY k USING 'skewed';\n\
Unsupported: JOIN a BY k LEFT, b BY k USING '';\n\
Unsupported: COGROUP a BY k, b BY k USING 'replicated';\n\
Unsupported: COGROUP a BY k, b BY k USING 'merge';\n\
Unsupported: GROUP a ALL USING 'collected';\n\
Unsupported: UNION ONSCHEMA a, b;";

#[test]
fn types_each_operator(rt: HostRuntime) {
    for row in OPERATORS.lines() {
        let (wanted, operator) = row.split_once(": ").unwrap_or(("none", ""));
        let mut script = copied(&rt, rt.alloc(), BEFORE);
        add(&rt, &mut script, operator);
        assert!(rt;
            third_is(&rt, rt.alloc(), script.as_str(), wanted),
            "{operator}"
        );
    }
}

// A JOIN, or a UNION, of so many inputs.
fn many<R: Abort>(rt: &R, alloc: Global, first: &str, further: &str, inputs: usize) -> String {
    let mut script = copied(rt, alloc, BEFORE);
    add(rt, &mut script, first);
    for _ in 1..inputs {
        add(rt, &mut script, further);
    }
    add(rt, &mut script, ";");
    script
}

// A JOIN of 128 inputs of four fields has as many fields as a row may have.
#[test]
fn types_many_inputs(rt: HostRuntime) {
    let alloc = rt.alloc();
    let joined = many(&rt, alloc, "JOIN a BY k", ", b BY l", 128);
    assert!(rt; third_is(&rt, alloc, joined.as_str(), "fine"));
    let refused = many(&rt, alloc, "JOIN a BY k", ", b BY l", 129);
    assert!(rt; third_is(&rt, alloc, refused.as_str(), "TooWide"));
    let united = many(&rt, alloc, "UNION a", ", b", 1000);
    assert!(rt; third_is(&rt, alloc, united.as_str(), "fine"));
}

// Operators of short words.
use crate::numbers::{digit, digits};
use crate::parts::{load, sort_keys, store};
use pig_plan::NodeOp;
use pig_typed::TExpr;
use pig_value::Dir;
use std::alloc::{AllocError, Global};

/// The operator of a word: a letter, and the path, the digits of the inputs, or both: `La` (LOAD of a
/// chararray), `f0` (FILTER by what always holds), `u001`, `d3`, `l0` (LIMIT of a row), `o2` (ORDER by
/// the first field), `s4p` and `s4q`.
pub fn operator(alloc: Global, word: &str) -> Result<NodeOp, AllocError> {
    let (letter, rest) = match word.as_bytes() {
        [letter, rest @ ..] => (*letter, rest),
        [] => (b'L', word.as_bytes()),
    };
    let input = match rest {
        [input, ..] => digit(*input),
        [] => 0,
    };
    Ok(match letter {
        b'f' => NodeOp::Filter {
            input,
            cond: TExpr::Bool(true),
        },
        b'u' => NodeOp::Union {
            inputs: digits(alloc, rest)?,
        },
        b'd' => NodeOp::Distinct { input },
        b'o' => NodeOp::Order {
            input,
            keys: sort_keys(alloc, Dir::Asc, &[0])?,
        },
        b'l' => NodeOp::Limit { input, count: 1 },
        b's' => {
            let path = if word.ends_with('p') { "p" } else { "q" };
            store(alloc, input, path)?
        }
        _ => load(alloc, "c", word.strip_prefix("L").unwrap_or("c"))?,
    })
}

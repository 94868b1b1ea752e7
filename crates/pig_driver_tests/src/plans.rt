// Plans from short words. Where memory is wanting the process ends: that drops nothing, so its proof is short.
use pig_nodes_tests::{
    above, add_fitting, call, flat, item, keyed, lettered, load, sort_keys, store,
};
use pig_plan::{KeyedInputs, NodeOp, Plan};
use pig_typed::{Block, BlockItems, BlockStep, BlockSteps, TExpr, TLink};
use pig_value::{Boxed, ChainOp, Dir, Function, Numbers, Seq, Side};
use std::alloc::Global;
use std::process::Abort;

// Adds to a list.
fn push<R: Abort, T: Drop>(rt: &R, list: &mut Seq<T>, item: T) {
    list.push(item).expect(rt, "memory");
}

/// A first field that is null.
fn is_null<R: Abort>(rt: &R, alloc: Global) -> TExpr {
    let a = Boxed::new(alloc, TExpr::Field(0)).expect(rt, "memory");
    TExpr::IsNull { a, not: false }
}

/// The first two fields, with an operator between them.
fn chain<R: Abort>(rt: &R, alloc: Global, op: ChainOp) -> TExpr {
    let a = TExpr::Field(1);
    let mut rest = Seq::new(alloc);
    push(rt, &mut rest, TLink { op, a });
    let first = Boxed::new(alloc, TExpr::Field(0)).expect(rt, "memory");
    TExpr::Chain { first, rest }
}

/// A function of the second fields of a group's rows.
fn of_seconds<R: Abort>(rt: &R, alloc: Global, function: Function) -> TExpr {
    let mut fields = Seq::new(alloc);
    push(rt, &mut fields, 1);
    let a = Boxed::new(alloc, TExpr::Field(1)).expect(rt, "memory");
    let single = true;
    let seconds = TExpr::Project { a, fields, single };
    call(alloc, function, seconds).expect(rt, "memory")
}

/// What FOREACH makes of a row of texts and numbers: the words of a text `t`, arithmetic `w`, and its fields turned round.
fn row_items<R: Abort>(rt: &R, alloc: Global, letter: u8) -> BlockItems {
    let mut items = Seq::new(alloc);
    if letter == b't' {
        let words = call(alloc, Function::Tokenize, TExpr::Field(0)).expect(rt, "memory");
        push(rt, &mut items, flat(words, 1));
    } else if letter == b'w' {
        for op in [ChainOp::Sub, ChainOp::Mul, ChainOp::Div, ChainOp::Rem] {
            push(rt, &mut items, item(chain(rt, alloc, op)));
        }
    } else {
        push(rt, &mut items, item(TExpr::Field(1)));
        push(rt, &mut items, item(TExpr::Field(0)));
    }
    items
}

/// What FOREACH makes of a group, behind its key: its rows `F`, the last two distinct ones `D` with their number, the
/// bounds of the second fields `m` with the number of rows, or this number and, with `S`, a sum.
fn group_items<R: Abort>(rt: &R, alloc: Global, letter: u8) -> BlockItems {
    let mut items = Seq::new(alloc);
    push(rt, &mut items, item(TExpr::Field(0)));
    if letter == b'F' {
        push(rt, &mut items, flat(TExpr::Field(1), 2));
        return items;
    }
    if letter == b'm' {
        for function in [Function::Min, Function::Max] {
            push(rt, &mut items, item(of_seconds(rt, alloc, function)));
        }
    }
    if letter == b'D' {
        push(rt, &mut items, item(TExpr::Local(2)));
    }
    let counted = match letter {
        b'D' => TExpr::Local(0),
        _ => TExpr::Field(1),
    };
    let function = match letter {
        b'm' => Function::CountStar,
        _ => Function::Count,
    };
    let counts = call(alloc, function, counted).expect(rt, "memory");
    push(rt, &mut items, item(counts));
    if letter == b'S' {
        push(rt, &mut items, item(of_seconds(rt, alloc, Function::Sum)));
    }
    items
}

/// The nested steps of `D`, and none of others.
fn steps<R: Abort>(rt: &R, alloc: Global, letter: u8) -> BlockSteps {
    let mut steps = Seq::new(alloc);
    if letter != b'D' {
        return steps;
    }
    let keys = sort_keys(alloc, Dir::Desc, &[0]).expect(rt, "memory");
    let from = TExpr::Field(1);
    push(rt, &mut steps, BlockStep::Distinct { from });
    let from = TExpr::Local(0);
    push(rt, &mut steps, BlockStep::Order { from, keys });
    let (from, count) = (TExpr::Local(1), 2);
    push(rt, &mut steps, BlockStep::Limit { from, count });
    steps
}

/// FOREACH of a row, or of a group.
fn foreach<R: Abort>(rt: &R, alloc: Global, letter: u8, input: u32) -> NodeOp {
    let items = match letter {
        b't' | b'w' | b'q' => row_items(rt, alloc, letter),
        _ => group_items(rt, alloc, letter),
    };
    let steps = steps(rt, alloc, letter);
    let block = Block { steps, items };
    NodeOp::Foreach { input, block }
}

/// GROUP `g`, with `G` of the rows whose first input has the key, and JOIN: inner `j`, LEFT `l`, RIGHT `r` and FULL, by
/// the first fields; inner `h` and LEFT `H` replicated; with `k` GROUP by the second ones.
fn by_key<R: Abort>(rt: &R, alloc: Global, letter: u8, numbers: &[u32]) -> NodeOp {
    let mut inputs = KeyedInputs::new(alloc);
    let mut inner = letter == b'G';
    for number in numbers {
        let key = TExpr::Field(u32::from(letter == b'k'));
        let keyed = keyed(alloc, *number, key, inner).expect(rt, "memory");
        push(rt, &mut inputs, keyed);
        inner = false;
    }
    let side = match letter {
        b'j' | b'h' => Side::Inner,
        b'l' | b'H' => Side::Left,
        b'r' => Side::Right,
        b'J' => Side::Full,
        _ => return NodeOp::Group { inputs },
    };
    NodeOp::Join {
        inputs,
        side,
        replicated: matches!(letter, b'h' | b'H'),
    }
}

/// ORDER `O`, RANK `R` and RANK DENSE `P`, which with `o`, `e` and `p` go down by their first field.
fn sorting<R: Abort>(rt: &R, alloc: Global, letter: u8, input: u32, numbers: &[u32]) -> NodeOp {
    let is_down = matches!(letter, b'o' | b'e' | b'p');
    let first = if is_down { Dir::Desc } else { Dir::Asc };
    let positions = numbers.get(1..).unwrap_or(&[]);
    let keys = sort_keys(alloc, first, positions).expect(rt, "memory");
    if matches!(letter, b'o' | b'O') {
        return NodeOp::Order { input, keys };
    }
    let dense = matches!(letter, b'p' | b'P');
    NodeOp::Rank { input, keys, dense }
}

/// FILTER by a first field above 1 `f` or by one that is null, and ASSERT `x` by one above 1.
fn tested<R: Abort>(rt: &R, alloc: Global, letter: u8, input: u32) -> NodeOp {
    if letter == b'n' {
        let cond = is_null(rt, alloc);
        return NodeOp::Filter { input, cond };
    }
    let cond = above(alloc).expect(rt, "memory");
    if letter == b'f' {
        return NodeOp::Filter { input, cond };
    }
    let message = None;
    NodeOp::Assert {
        input,
        cond,
        message,
    }
}

/// The operator of a letter and the digits of nodes, fields and a count: those above, UNION `u`, DISTINCT `d`, GROUP ALL
/// `a`, LIMIT `L` and STORE.
fn operator<R: Abort>(rt: &R, alloc: Global, letter: u8, inputs: Numbers) -> NodeOp {
    let input = inputs.get(0).copied().unwrap_or(0);
    match letter {
        b'f' | b'n' | b'x' => tested(rt, alloc, letter, input),
        b't' | b'w' | b'q' | b'c' | b'S' | b'm' | b'F' | b'D' => foreach(rt, alloc, letter, input),
        b'g' | b'k' | b'G' | b'j' | b'h' | b'l' | b'H' | b'r' | b'J' => {
            by_key(rt, alloc, letter, inputs.as_slice())
        }
        b'o' | b'O' | b'e' | b'R' | b'p' | b'P' => {
            sorting(rt, alloc, letter, input, inputs.as_slice())
        }
        b'u' => NodeOp::Union { inputs },
        b'd' => NodeOp::Distinct { input },
        b'a' => NodeOp::GroupAll { input },
        b'L' => {
            let count = u64::from(inputs.get(1).copied().unwrap_or(0));
            NodeOp::Limit { input, count }
        }
        _ => store(alloc, input, "out").expect(rt, "memory"),
    }
}

/// The operator of a word: LOAD as `KINDS=PATH`, and other operators.
fn operator_of<R: Abort>(rt: &R, alloc: Global, word: &str) -> NodeOp {
    if let Some((kinds, path)) = word.split_once('=') {
        return load(alloc, kinds, path).expect(rt, "memory");
    }
    let (letter, inputs) = lettered(alloc, word).expect(rt, "memory");
    operator(rt, alloc, letter, inputs)
}

/// Adds the node of a word where it fits.
pub fn add_word<R: Abort>(
    rt: &R,
    alloc: Global,
    plan: &mut Plan,
    word: &str,
    statement: u32,
) -> bool {
    let op = operator_of(rt, alloc, word);
    add_fitting(plan, op, statement).expect(rt, "memory")
}

/// The plan of these words, which are statements from 1 on. Each has to fit.
pub fn plan<R: Abort>(rt: &R, alloc: Global, words: &str) -> Plan {
    let mut plan = Plan::empty(alloc);
    let mut statement = 1;
    for word in words.split(' ') {
        let fits = add_word(rt, alloc, &mut plan, word, statement);
        assert!(rt; fits, "a node that doesn't fit");
        statement = u32::saturating_add(statement, 1);
    }
    plan
}

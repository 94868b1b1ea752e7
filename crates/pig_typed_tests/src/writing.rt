//! Expressions that letters write, with their operands before each operator.
//!
//! A digit is a field of the row, `L` the local and `N` one behind it. Literals: `n` null, `t` true, `i` int, `l` long,
//! `c` chararray; `u` is TOTUPLE of nothing. One operand: `!` NOT, `~` minus, `z` IS NULL, `w` IS NOT NULL; casts `I` `G`
//! `C` `B` `Y`; projections `p` of field 0, `q` of field 1, `s` of field 2, `r` of both, `v` of both as if of one, `o` of
//! none; `#` a look-up; functions `U` COUNT, `D` COUNT_STAR, `S` SUM, `M` MIN, `H` MAX, `A` ABS, `Z` SIZE, `E` IsEmpty,
//! `T` TOKENIZE. Two: `+` `-` `x` `/` `%` `&` `|`; `=` `^` not equal, `<` `>`, `e` at most, `g` at least; `K` CONCAT, `W`
//! TOTUPLE, `V` TOBAG, `R` TOBAG of tuples of 2 fields and `F` of 3, `X` INDEXOF, `P` STARTSWITH, `Q` ENDSWITH, `d` SIZE.
//! Three: `?` and `J` SUBSTRING.
//!
//! Where memory or an operand is wanting the process ends: that drops nothing, so its proof is short.
use pig_typed::{TExpr, TLink};
use pig_value::{Boxed, ChainOp, Function, Kind, Kinds, Positions, Rel, Seq, Text};
use std::alloc::Global;
use std::process::Abort;

/// Adds to a list.
pub fn push<R: Abort, T: Drop>(rt: &R, list: &mut Seq<T>, item: T) {
    list.push(item).expect(rt, "memory");
}

pub fn kinds<R: Abort>(rt: &R, alloc: Global, letters: &[u8]) -> Kinds {
    let mut kinds = Seq::new(alloc);
    for letter in letters {
        push(rt, &mut kinds, scalar(*letter));
    }
    kinds
}

fn scalar(letter: u8) -> Kind {
    match letter {
        b'b' | b'B' => Kind::Boolean,
        b'i' | b'I' => Kind::Int,
        b'l' | b'G' => Kind::Long,
        b'c' | b'C' => Kind::Chararray,
        _ => Kind::Bytearray,
    }
}

/// The kinds of the row: `i l c y b (ic) {il} [i]`.
pub fn row<R: Abort>(rt: &R, alloc: Global) -> Kinds {
    let mut row = kinds(rt, alloc, b"ilcyb");
    push(rt, &mut row, Kind::Tuple(kinds(rt, alloc, b"ic")));
    push(rt, &mut row, Kind::Bag(kinds(rt, alloc, b"il")));
    let ints = Boxed::new(alloc, Kind::Int).expect(rt, "memory");
    push(rt, &mut row, Kind::Map(ints));
    row
}

/// The kinds of the locals: `{i}`.
pub fn locals<R: Abort>(rt: &R, alloc: Global) -> Kinds {
    let mut locals = Seq::new(alloc);
    push(rt, &mut locals, Kind::Bag(kinds(rt, alloc, b"i")));
    locals
}

/// The expression that the letters write.
pub fn written<R: Abort>(rt: &R, alloc: Global, letters: &[u8]) -> TExpr {
    let mut stack = Vec::new(alloc);
    for letter in letters {
        let e = applied(rt, alloc, *letter, &mut stack);
        stack.push(e).expect(rt, "memory");
    }
    operand(rt, &mut stack)
}

fn operand<R: Abort>(rt: &R, stack: &mut Vec<TExpr>) -> TExpr {
    stack.pop().expect(rt, "an operand")
}

fn leaf<R: Abort>(rt: &R, alloc: Global, letter: u8) -> TExpr {
    match letter {
        b'0'..=b'9' => TExpr::Field(u32::from(letter - b'0')),
        b'L' => TExpr::Local(0),
        b'N' => TExpr::Local(1),
        b't' => TExpr::Bool(true),
        b'i' => TExpr::Int(2),
        b'l' => TExpr::Long(3),
        b'c' => TExpr::Chars(Text::from_str(alloc, "x").expect(rt, "memory")),
        b'u' => TExpr::Call {
            function: Function::ToTuple,
            args: Seq::new(alloc),
        },
        _ => TExpr::Null,
    }
}

fn operands(letter: u8) -> usize {
    match letter {
        b'0'..=b'9' | b'L' | b'N' | b'n' | b't' | b'i' | b'l' | b'c' | b'u' => 0,
        b'?' | b'J' => 3,
        b'+' | b'-' | b'x' | b'/' | b'%' | b'&' | b'|' => 2,
        b'=' | b'^' | b'<' | b'>' | b'e' | b'g' => 2,
        b'K' | b'W' | b'V' | b'R' | b'F' | b'X' | b'P' | b'Q' | b'd' => 2,
        _ => 1,
    }
}

fn applied<R: Abort>(rt: &R, alloc: Global, letter: u8, stack: &mut Vec<TExpr>) -> TExpr {
    let count = operands(letter);
    if count == 0 {
        return leaf(rt, alloc, letter);
    }
    let c = operand(rt, stack);
    if count == 1 {
        return of_one(rt, alloc, letter, c);
    }
    let b = operand(rt, stack);
    if count == 2 {
        return of_two(rt, alloc, letter, b, c);
    }
    let a = operand(rt, stack);
    of_three(rt, alloc, letter, a, b, c)
}

fn of_one<R: Abort>(rt: &R, alloc: Global, letter: u8, a: TExpr) -> TExpr {
    match function_of_one(letter) {
        Some(function) => called(rt, alloc, function, a),
        None => on_box(rt, alloc, letter, Boxed::new(alloc, a).expect(rt, "memory")),
    }
}

fn on_box<R: Abort>(rt: &R, alloc: Global, letter: u8, a: Boxed<TExpr>) -> TExpr {
    match letter {
        b'!' => TExpr::Not(a),
        b'~' => TExpr::Minus(a),
        b'z' => TExpr::IsNull { a, not: false },
        b'w' => TExpr::IsNull { a, not: true },
        b'I' | b'G' | b'C' | b'B' | b'Y' => TExpr::Cast {
            to: scalar(letter),
            a,
        },
        b'#' => look(rt, alloc, a),
        _ => projected(rt, alloc, letter, a),
    }
}

fn function_of_one(letter: u8) -> Option<Function> {
    match letter {
        b'U' => Some(Function::Count),
        b'D' => Some(Function::CountStar),
        b'S' => Some(Function::Sum),
        b'M' => Some(Function::Min),
        b'H' => Some(Function::Max),
        b'A' => Some(Function::Abs),
        b'Z' => Some(Function::Size),
        b'E' => Some(Function::IsEmpty),
        b'T' => Some(Function::Tokenize),
        _ => None,
    }
}

fn called<R: Abort>(rt: &R, alloc: Global, function: Function, a: TExpr) -> TExpr {
    let mut args = Seq::new(alloc);
    push(rt, &mut args, a);
    TExpr::Call { function, args }
}

fn look<R: Abort>(rt: &R, alloc: Global, a: Boxed<TExpr>) -> TExpr {
    let key = Text::from_str(alloc, "k").expect(rt, "memory");
    TExpr::Look { a, key }
}

fn projected<R: Abort>(rt: &R, alloc: Global, letter: u8, a: Boxed<TExpr>) -> TExpr {
    let fields = positions(rt, alloc, letter);
    TExpr::Project {
        a,
        fields,
        single: letter != b'r',
    }
}

fn positions<R: Abort>(rt: &R, alloc: Global, letter: u8) -> Positions {
    let mut fields = Seq::new(alloc);
    if matches!(letter, b'p' | b'r' | b'v') {
        push(rt, &mut fields, 0);
    }
    if matches!(letter, b'q' | b'r' | b'v') {
        push(rt, &mut fields, 1);
    }
    if letter == b's' {
        push(rt, &mut fields, 2);
    }
    fields
}

fn of_two<R: Abort>(rt: &R, alloc: Global, letter: u8, a: TExpr, b: TExpr) -> TExpr {
    match letter {
        b'+' | b'-' | b'x' | b'/' | b'%' | b'&' | b'|' => chain(rt, alloc, chain_op(letter), a, b),
        b'=' | b'^' | b'<' | b'>' | b'e' | b'g' => compare(rt, alloc, rel(letter), a, b),
        _ => call_two(rt, alloc, function_of_two(letter), a, b),
    }
}

fn chain_op(letter: u8) -> ChainOp {
    match letter {
        b'+' => ChainOp::Add,
        b'-' => ChainOp::Sub,
        b'x' => ChainOp::Mul,
        b'/' => ChainOp::Div,
        b'%' => ChainOp::Rem,
        b'&' => ChainOp::And,
        _ => ChainOp::Or,
    }
}

fn rel(letter: u8) -> Rel {
    match letter {
        b'=' => Rel::Eq,
        b'^' => Rel::Ne,
        b'<' => Rel::Lt,
        b'>' => Rel::Gt,
        b'e' => Rel::Le,
        _ => Rel::Ge,
    }
}

fn function_of_two(letter: u8) -> Function {
    match letter {
        b'K' => Function::Concat,
        b'W' => Function::ToTuple,
        b'V' => Function::ToBag { width: None },
        b'R' => Function::ToBag { width: Some(2) },
        b'F' => Function::ToBag { width: Some(3) },
        b'X' => Function::IndexOf,
        b'P' => Function::StartsWith,
        b'Q' => Function::EndsWith,
        _ => Function::Size,
    }
}

fn chain<R: Abort>(rt: &R, alloc: Global, op: ChainOp, a: TExpr, b: TExpr) -> TExpr {
    let mut rest = Seq::new(alloc);
    push(rt, &mut rest, TLink { op, a: b });
    let first = Boxed::new(alloc, a).expect(rt, "memory");
    TExpr::Chain { first, rest }
}

fn compare<R: Abort>(rt: &R, alloc: Global, op: Rel, a: TExpr, b: TExpr) -> TExpr {
    let a = Boxed::new(alloc, a).expect(rt, "memory");
    let b = Boxed::new(alloc, b).expect(rt, "memory");
    TExpr::Compare { op, a, b }
}

fn call_two<R: Abort>(rt: &R, alloc: Global, function: Function, a: TExpr, b: TExpr) -> TExpr {
    let mut args = Seq::new(alloc);
    push(rt, &mut args, a);
    push(rt, &mut args, b);
    TExpr::Call { function, args }
}

fn of_three<R: Abort>(rt: &R, alloc: Global, letter: u8, a: TExpr, b: TExpr, c: TExpr) -> TExpr {
    if letter == b'?' {
        choose(rt, alloc, a, b, c)
    } else {
        part(rt, alloc, a, b, c)
    }
}

/// `(cond ? yes : no)`.
pub fn choose<R: Abort>(rt: &R, alloc: Global, cond: TExpr, yes: TExpr, no: TExpr) -> TExpr {
    let cond = Boxed::new(alloc, cond).expect(rt, "memory");
    let yes = Boxed::new(alloc, yes).expect(rt, "memory");
    let no = Boxed::new(alloc, no).expect(rt, "memory");
    TExpr::Choose { cond, yes, no }
}

fn part<R: Abort>(rt: &R, alloc: Global, a: TExpr, b: TExpr, c: TExpr) -> TExpr {
    let mut args = Seq::new(alloc);
    push(rt, &mut args, a);
    push(rt, &mut args, b);
    push(rt, &mut args, c);
    TExpr::Call {
        function: Function::Substring,
        args,
    }
}

ghost use Rattle.std.specs.Prelude.{◌≡◌};
ghost use Rattle.pig_share.specs.Hashed.{all_hash, chain_number, dir_number, flag_hash, function_hash, mixed, rel_number, side_number, spread, width_hash};

use pig_value::{ChainOp, Dir, Function, Rel, Side};

// A hash with a number mixed in.
#[tactic(auto, unfolding(crate::specs::Hashed::mixed))]
pub fn mix(h: u64, x: u64) -> u64
    ensures { result ≡ mixed h x }
{
    spread_bits((h ^ x).wrapping_mul(0x9e37_79b9_7f4a_7c15))
}

#[tactic(auto, unfolding(crate::specs::Hashed::spread))]
fn spread_bits(n: u64) -> u64
    ensures { result ≡ spread n }
{
    n ^ (n >> 32)
}

// A truth value mixed in.
pub fn mix_flag(h: u64, flag: bool) -> u64
    ensures { result ≡ flag_hash h flag }
{
    if flag { mix(h, 1) } else { mix(h, 2) }
}

// Bytes mixed in, and that they end.
pub fn mix_bytes(h: u64, bytes: &[u8]) -> u64
    ensures { result ≡ all_hash mixed h bytes.now }
{
    let mut made = h;
    for byte in bytes {
        made = mix(made, u64::from(*byte));
    }
    mix(made, 99)
}

// Numbers mixed in, and that they end.
pub fn mix_numbers(h: u64, numbers: &[u32]) -> u64
    ensures { result ≡ all_hash mixed h numbers.now }
{
    let mut made = h;
    for number in numbers {
        made = mix(made, u64::from(*number));
    }
    mix(made, 99)
}

pub fn rel_number(op: Rel) -> u64
    ensures { result ≡ rel_number op }
{
    match op {
        Rel::Eq => 1,
        Rel::Ne => 2,
        Rel::Lt => 3,
        Rel::Le => 4,
        Rel::Gt => 5,
        Rel::Ge => 6,
    }
}

pub fn side_number(side: Side) -> u64
    ensures { result ≡ side_number side }
{
    match side {
        Side::Inner => 1,
        Side::Left => 2,
        Side::Right => 3,
        Side::Full => 4,
    }
}

pub fn dir_number(dir: Dir) -> u64
    ensures { result ≡ dir_number dir }
{
    match dir {
        Dir::Asc => 1,
        Dir::Desc => 2,
    }
}

pub fn chain_number(op: ChainOp) -> u64
    ensures { result ≡ chain_number op }
{
    match op {
        ChainOp::Or => 1,
        ChainOp::And => 2,
        ChainOp::Add => 3,
        ChainOp::Sub => 4,
        ChainOp::Mul => 5,
        ChainOp::Div => 6,
        ChainOp::Rem => 7,
    }
}

fn mix_width(h: u64, width: Option<u32>) -> u64
    ensures { result ≡ width_hash h width }
{
    match width {
        None => mix(h, 1),
        Some(n) => mix(mix(h, 2), u64::from(n)),
    }
}

// A function mixed in.
pub fn mix_function(h: u64, function: Function) -> u64
    ensures { result ≡ function_hash h function }
{
    match function {
        Function::Count => mix(h, 1),
        Function::CountStar => mix(h, 2),
        Function::Sum => mix(h, 3),
        Function::Min => mix(h, 4),
        Function::Max => mix(h, 5),
        Function::Size => mix(h, 6),
        Function::Concat => mix(h, 7),
        Function::IsEmpty => mix(h, 8),
        Function::Tokenize => mix(h, 9),
        Function::Substring => mix(h, 10),
        Function::StartsWith => mix(h, 11),
        Function::EndsWith => mix(h, 12),
        Function::IndexOf => mix(h, 13),
        Function::Abs => mix(h, 14),
        Function::ToTuple => mix(h, 15),
        Function::ToBag { width } => mix_width(mix(h, 16), width),
    }
}

ghost use Rattle.std.specs.Prelude.{◌≡◌, map};
ghost use Rattle.pig_plan.specs.Moves.{field_of, plain_at};
ghost use Rattle.pig_typed.specs.Typed.{args_of, item_typed, link_of, links_of, typed};
ghost use Rattle.pig_moves.specs.Pushed.{each_arg, each_field, each_link, is_handed};

use pig_typed::{BlockItem, TExpr, TLink};

/// Whether each column that an expression names is handed on by an item.
#[cycle(hands_all)]
pub fn hands_all(items: &[BlockItem], e: &TExpr) -> bool
    ensures { result ≡ each_field (is_handed (map item_typed items.now)) (typed e.now) }
{
    match e {
        TExpr::Null => true,
        TExpr::Bool(_) => true,
        TExpr::Int(_) => true,
        TExpr::Long(_) => true,
        TExpr::Chars(_) => true,
        TExpr::Field(n) => hands(items, *n),
        TExpr::Local(_) => true,
        TExpr::Chain { first, rest } => {
            hands_all(items, first.get()) && hands_links(items, rest.as_slice())
        }
        TExpr::Compare { op: _, a, b } => hands_all(items, a.get()) && hands_all(items, b.get()),
        TExpr::IsNull { a, not: _ } => hands_all(items, a.get()),
        TExpr::Not(a) => hands_all(items, a.get()),
        TExpr::Minus(a) => hands_all(items, a.get()),
        TExpr::Choose { cond, yes, no } => {
            hands_all(items, cond.get())
                && (hands_all(items, yes.get()) && hands_all(items, no.get()))
        }
        TExpr::Cast { to: _, a } => hands_all(items, a.get()),
        TExpr::Project {
            a,
            fields: _,
            single: _,
        } => hands_all(items, a.get()),
        TExpr::Look { a, key: _ } => hands_all(items, a.get()),
        TExpr::Call { function: _, args } => hands_args(items, args.as_slice()),
    }
}

#[cycle(hands_all)]
fn hands_links(items: &[BlockItem], links: &[TLink]) -> bool
    ensures { result
        ≡ each_link (is_handed (map item_typed items.now)) (links_of (map link_of links.now)) }
{
    for link in links {
        if !hands_all(items, &link.a) {
            return false;
        }
    }
    true
}

#[cycle(hands_all)]
fn hands_args(items: &[BlockItem], args: &[TExpr]) -> bool
    ensures { result
        ≡ each_arg (is_handed (map item_typed items.now)) (args_of (map typed args.now)) }
{
    for e in args {
        if !hands_all(items, e) {
            return false;
        }
    }
    true
}

fn hands(items: &[BlockItem], n: u32) -> bool
    ensures { result ≡ is_handed (map item_typed items.now) n }
{
    plain_at(items, n).is_some()
}

// The column that an item hands on, by the position of what it makes. An item under FLATTEN makes
// as many as its width, and hands on none.
pub fn plain_at(items: &[BlockItem], n: u32) -> Option<u32>
    ensures { result ≡ plain_at (map item_typed items.now) n }
{
    let mut left = items;
    let mut place = n;
    while let [item, rest @ ..] = left {
        left = rest;
        if item.flatten {
            if place < item.width {
                return None;
            }
            place -= item.width;
            continue;
        }
        if place == 0 {
            return field_of(&item.value);
        }
        place -= 1;
    }
    None
}

fn field_of(e: &TExpr) -> Option<u32>
    ensures { result ≡ field_of (typed e.now) }
{
    match e {
        TExpr::Field(n) => Some(*n),
        _ => None,
    }
}

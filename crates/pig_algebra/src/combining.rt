ghost use Rattle.std.specs.Prelude.{◌≡◌, Bool, List, None, cond, map, ℕ, IfOk};
ghost use Rattle.std.specs.Option.{option_map};
ghost use Rattle.pig_value.specs.FieldReader.{all_of};
ghost use Rattle.pig_builtins.specs.Folds.{is_algebraic as is_algebraic_function};
ghost use Rattle.pig_typed.specs.Typed.{args_of, block_typed, item_typed, typed, x_project};
ghost use Rattle.pig_algebra.specs.Combining.{CombinersLaw, PartsFinishToTheRow, SortedCombinersLaw};
ghost use Rattle.pig_algebra.specs.Cuts.{cut_of, cut_of_bag, cut_typed, cuts_of, is_of_field as is_of_field_typed, only_arg, part_cut};

use crate::{Cut, Cuts};
use pig_typed::{Block, BlockItem, BlockItems, TExpr, TExprs, copy_expr, copy_positions};
use pig_value::{Function, Positions, Seq};
use std::alloc::{AllocError, Global};

/// Where the items of a block of a FOREACH over a GROUP come from, if each is the key or is made of parts.
///
/// A block has cuts exactly where it has no nested step and each item, without FLATTEN, is field 0, which is the
/// key, a projection of field 0, or an algebraic function of field 1, which is the grouped bag, or of a projection
/// of field 1.
pub fn combinable(alloc: Global, block: &Block) -> Result<Option<Cuts>, AllocError>
    ensures { IfOk result (λ cuts. option_map (map cut_typed) cuts
        ≡ cuts_of (block_typed block.now)) }
{
    match block.steps.as_slice() {
        [] => cuts_of_items(alloc, &block.items),
        [_, ..] => Ok(None),
    }
}

fn cuts_of_items(alloc: Global, items: &BlockItems) -> Result<Option<Cuts>, AllocError>
    ensures { IfOk result (λ cuts. option_map (map cut_typed) cuts
        ≡ all_of cut_of (map item_typed items.now)) }
{
    let mut cuts = Seq::new(alloc);
    for item in items.as_slice() {
        match cut_of_item(alloc, item)? {
            Some(cut) => cuts.push(cut)?,
            None => return Ok(None),
        }
    }
    Ok(Some(cuts))
}

fn cut_of_item(alloc: Global, item: &BlockItem) -> Result<Option<Cut>, AllocError>
    ensures { IfOk result (λ cut. option_map cut_typed cut ≡ cut_of (item_typed item.now)) }
{
    if item.flatten {
        Ok(None)
    } else if is_of_field(&item.value, 0) {
        Ok(Some(Cut::Key(copy_expr(alloc, &item.value)?)))
    } else {
        part_of(alloc, &item.value)
    }
}

// Whether an expression is the field of a number, or a projection of it.
fn is_of_field(e: &TExpr, n: u32) -> bool
    ensures { result ≡ is_of_field_typed n (typed e.now) }
{
    match e {
        TExpr::Field(m) => *m == n,
        TExpr::Project { a, .. } => is_projected(a.get(), n),
        _ => false,
    }
}

// Whether a projection of an expression is one of the field of a number.
fn is_projected(e: &TExpr, n: u32) -> bool
    ensures { (fields : List ℕ) (single : Bool)
        → result ≡ is_of_field_typed n (x_project (typed e.now) fields single) }
{
    match e {
        TExpr::Field(m) => *m == n,
        _ => false,
    }
}

fn part_of(alloc: Global, e: &TExpr) -> Result<Option<Cut>, AllocError>
    ensures { IfOk result (λ cut. option_map cut_typed cut ≡ part_cut (typed e.now)) }
{
    match e {
        TExpr::Call { function, args } => match only(args) {
            Some(bag) => part_of_bag(alloc, *function, bag),
            None => Ok(None),
        },
        _ => Ok(None),
    }
}

// The one argument of a call.
fn only(args: &TExprs) -> Option<&TExpr>
    ensures { option_map (λ e. typed e.now) result ≡ only_arg (args_of (map typed args.now)) }
{
    match args.as_slice() {
        [] => None,
        [arg] => Some(arg),
        [_, _, ..] => None,
    }
}

fn part_of_bag(alloc: Global, function: Function, bag: &TExpr) -> Result<Option<Cut>, AllocError>
    ensures { IfOk result (λ cut. option_map cut_typed cut
        ≡ cond (is_algebraic_function function) (cut_of_bag function (typed bag.now)) None) }
{
    if !is_algebraic(function) {
        return Ok(None);
    }
    match bag {
        TExpr::Field(1) => Ok(Some(Cut::Part {
            function,
            columns: None,
        })),
        TExpr::Project { a, fields, .. } => part_of_columns(alloc, function, a.get(), fields),
        _ => Ok(None),
    }
}

fn part_of_columns(
    alloc: Global,
    function: Function,
    bag: &TExpr,
    fields: &Positions,
) -> Result<Option<Cut>, AllocError>
    ensures { (single : Bool) → IfOk result (λ cut. option_map cut_typed cut
        ≡ cut_of_bag function (x_project (typed bag.now) fields.now single)) }
{
    match bag {
        TExpr::Field(1) => Ok(Some(Cut::Part {
            function,
            columns: Some(copy_positions(alloc, fields)?),
        })),
        _ => Ok(None),
    }
}

fn is_algebraic(function: Function) -> bool
    ensures { result ≡ is_algebraic_function function }
{
    matches!(
        function,
        Function::Count | Function::CountStar | Function::Sum | Function::Min | Function::Max
    )
}

/// Parts are finished to what the FOREACH makes.
///
/// Of one key: the parts of its rows, which come in one or more lists, are finished to the FOREACH's row of the key
/// and the bag of all the rows. Of all keys: entries come in tasks, each of which hands on the parts of each of its
/// keys; whatever part of the keys each stands in, and in whatever order it is taken, together they are finished to
/// what the FOREACH makes of the GROUP of all entries.
pub fn parts_make_the_rows()
    ensures row { PartsFinishToTheRow }
    ensures groups { CombinersLaw }
    ensures sorted { SortedCombinersLaw }
{}

ghost use Rattle.std.specs.Prelude.{◌≡◌, [], ◌∷◌, length, map};
ghost use Rattle.pig_exprs.specs.declared.limits.TheConstants.{MOST_NESTED};
ghost use Rattle.pig_exprs.specs.Grammar.{Forms};
ghost use Rattle.pig_exprs.specs.Reader.{forms, Gives, GivesBeside};
ghost use Rattle.pig_parser.specs.StatementReader.{names_at, naming_at, flattened_at, value_at, item_at, bag_selection_at, bag_ref_at, nested_filter_at, nested_order_at, nested_limit_at, nested_at, step_turn, steps_at};

use crate::parts::{ExpressionRule, count, order_keys};
use pig_exprs::{
    Limits, MOST_NESTED, ParseFault, Rule, Turning, behind_symbol, behind_word, beside, closed,
    expression, field, field_ref, form, repeat, schema, selection, symbol, word,
};
use pig_syntax::{
    AsNames, BagRef, Item, Keyword, Nested, PostStep, Step, Steps, Symbol, Token, TokenForm,
};
use std::alloc::Global;

// The names behind AS.
#[tactic(auto, unfolding(crate::specs::StatementReader::names_at))]
fn names(alloc: Global, tokens: &[Token]) -> Result<(AsNames, &[Token]), ParseFault>
    ensures { Gives (names_at MOST_NESTED (forms tokens.now)) result }
{
    match tokens {
        [form!(Ident(_)), ..] => {
            let (name, rest) = field(alloc, tokens, MOST_NESTED)?;
            Ok((AsNames::One(name), rest))
        }
        _ => {
            let (fields, rest) = schema(alloc, tokens, MOST_NESTED)?;
            Ok((AsNames::Several(fields), rest))
        }
    }
}

// AS and its names, where they stand.
#[tactic(auto, unfolding(crate::specs::StatementReader::naming_at))]
fn naming(alloc: Global, tokens: &[Token]) -> Result<(Option<AsNames>, &[Token]), ParseFault>
    ensures { Gives (naming_at MOST_NESTED (forms tokens.now)) result }
{
    match tokens {
        [word!(As), rest @ ..] => {
            let (names, rest) = names(alloc, rest)?;
            Ok((Some(names), rest))
        }
        _ => Ok((None, tokens)),
    }
}

// What is kept, and AS and its names behind it, where they stand.
fn and_naming<K: Drop>(
    alloc: Global,
    kept: K,
    tokens: &[Token],
) -> Result<((K, Option<AsNames>), &[Token]), ParseFault>
    ensures { GivesBeside kept (naming_at MOST_NESTED (forms tokens.now)) result }
{
    let (names, rest) = naming(alloc, tokens)?;
    Ok(((kept, names), rest))
}

// An item behind FLATTEN and `(`.
#[tactic(auto, unfolding(crate::specs::StatementReader::flattened_at))]
fn flattened<'a>(
    alloc: Global,
    limits: &Limits,
    tokens: &'a [Token],
) -> Result<(Item, &'a [Token]), ParseFault>
    ensures { Gives (flattened_at MOST_NESTED (forms tokens.now)) result }
{
    let (value, rest) = expression(alloc, limits, tokens)?;
    let (value, rest) = closed(value, rest)?;
    let ((value, names), rest) = and_naming(alloc, value, rest)?;
    let flatten = true;
    Ok((
        Item::Value {
            value,
            flatten,
            names,
        },
        rest,
    ))
}

// An item that is an expression.
#[tactic(auto, unfolding(crate::specs::StatementReader::value_at))]
fn value<'a>(
    alloc: Global,
    limits: &Limits,
    tokens: &'a [Token],
) -> Result<(Item, &'a [Token]), ParseFault>
    ensures { Gives (value_at MOST_NESTED (forms tokens.now)) result }
{
    let (value, rest) = expression(alloc, limits, tokens)?;
    let ((value, names), rest) = and_naming(alloc, value, rest)?;
    let flatten = false;
    Ok((
        Item::Value {
            value,
            flatten,
            names,
        },
        rest,
    ))
}

// Items as members of a list.
#[derive(Drop)]
pub struct ItemRule<'l> {
    pub alloc: Global,
    pub limits: &'l Limits,
}

impl Rule for ItemRule<'_> {
    type Tree = Item;

    ghost ready = { λ _. Unit {0} };

    ghost finds = { λ _. item_at MOST_NESTED };

    #[tactic(auto, unfolding(crate::specs::StatementReader::item_at))]
    fn read<'a>(&self, tokens: &'a [Token]) -> Result<(Item, &'a [Token]), ParseFault> {
        match tokens {
            [symbol!(Star), rest @ ..] => Ok((Item::All, rest)),
            [word!(Flatten), symbol!(OpenParen), rest @ ..] => flattened(
                self.alloc,
                self.limits,
                rest,
            ),
            _ => value(self.alloc, self.limits, tokens),
        }
    }
}

// What is kept, and the projection behind a bag, where one stands.
#[tactic(auto, unfolding(crate::specs::StatementReader::bag_selection_at))]
fn bag_selection<K: Drop>(
    alloc: Global,
    kept: K,
    tokens: &[Token],
) -> Result<((K, Option<PostStep>), &[Token]), ParseFault>
    ensures { GivesBeside kept (bag_selection_at (forms tokens.now)) result }
{
    match tokens {
        [symbol!(Dot), rest @ ..] => {
            let (step, rest) = selection(alloc, rest)?;
            Ok(((kept, Some(step)), rest))
        }
        _ => Ok(((kept, None), tokens)),
    }
}

// A bag in a block.
#[tactic(auto, unfolding(crate::specs::StatementReader::bag_ref_at))]
fn bag_ref(alloc: Global, tokens: &[Token]) -> Result<(BagRef, &[Token]), ParseFault>
    ensures { Gives (bag_ref_at (forms tokens.now)) result }
{
    let (field, rest) = field_ref(alloc, tokens)?;
    let ((field, sel), rest) = bag_selection(alloc, field, rest)?;
    Ok((BagRef { field, sel }, rest))
}

// What stands behind FILTER in a block.
#[tactic(auto, unfolding(crate::specs::StatementReader::nested_filter_at))]
fn nested_filter<'a>(
    alloc: Global,
    limits: &Limits,
    tokens: &'a [Token],
) -> Result<(Nested, &'a [Token]), ParseFault>
    ensures { Gives (nested_filter_at MOST_NESTED (forms tokens.now)) result }
{
    let (from, rest) = bag_ref(alloc, tokens)?;
    let (from, rest) = behind_word(from, Keyword::By, rest)?;
    let ((from, cond), rest) = beside(from, &ExpressionRule { alloc, limits }, rest)?;
    Ok((Nested::Filter { from, cond }, rest))
}

// What stands behind ORDER in a block.
#[tactic(auto, unfolding(crate::specs::StatementReader::nested_order_at))]
fn nested_order(alloc: Global, tokens: &[Token]) -> Result<(Nested, &[Token]), ParseFault>
    ensures { Gives (nested_order_at (forms tokens.now)) result }
{
    let (from, rest) = bag_ref(alloc, tokens)?;
    let (from, rest) = behind_word(from, Keyword::By, rest)?;
    let ((from, keys), rest) = order_keys(alloc, from, rest)?;
    Ok((Nested::Order { from, keys }, rest))
}

// What stands behind LIMIT in a block.
#[tactic(auto, unfolding(crate::specs::StatementReader::nested_limit_at))]
fn nested_limit(alloc: Global, tokens: &[Token]) -> Result<(Nested, &[Token]), ParseFault>
    ensures { Gives (nested_limit_at (forms tokens.now)) result }
{
    let (from, rest) = bag_ref(alloc, tokens)?;
    let ((from, count), rest) = count(from, rest)?;
    Ok((Nested::Limit { from, count }, rest))
}

// What a nested alias is made by.
#[tactic(auto, unfolding(crate::specs::StatementReader::nested_at))]
fn nested<'a>(
    alloc: Global,
    limits: &Limits,
    tokens: &'a [Token],
) -> Result<(Nested, &'a [Token]), ParseFault>
    ensures { Gives (nested_at MOST_NESTED (forms tokens.now)) result }
{
    match tokens {
        [word!(Filter), rest @ ..] => nested_filter(alloc, limits, rest),
        [word!(Distinct), rest @ ..] => {
            let (from, rest) = bag_ref(alloc, rest)?;
            Ok((Nested::Distinct { from }, rest))
        }
        [word!(Order), rest @ ..] => nested_order(alloc, rest),
        [word!(Limit), rest @ ..] => nested_limit(alloc, rest),
        _ => {
            let (from, rest) = bag_ref(alloc, tokens)?;
            Ok((Nested::Take { from }, rest))
        }
    }
}

// The steps of a block.
#[derive(Drop)]
struct StepTurns<'l> {
    alloc: Global,
    limits: &'l Limits,
}

impl Turning for StepTurns<'_> {
    type Tree = Step;

    ghost ready = { λ _. Unit {0} };

    ghost finds = { λ _. step_turn MOST_NESTED };

    #[tactic(auto, unfolding(crate::specs::StatementReader::step_turn))]
    fn turn<'a>(&self, tokens: &'a [Token]) -> Result<Option<(Step, &'a [Token])>, ParseFault> {
        match tokens {
            [form!(Ident(name)), symbol!(Assign), rest @ ..] => {
                let alias = name.copy(self.alloc)?;
                let (nested, rest) = nested(self.alloc, self.limits, rest)?;
                let (nested, rest) = behind_symbol(nested, Symbol::Semicolon, rest)?;
                Ok(Some((Step { alias, nested }, rest)))
            }
            _ => Ok(None),
        }
    }
}

// The steps of a block.
#[tactic(auto, unfolding(crate::specs::StatementReader::steps_at))]
pub fn steps<'a>(
    alloc: Global,
    limits: &Limits,
    tokens: &'a [Token],
) -> Result<(Steps, &'a [Token]), ParseFault>
    ensures { Gives (steps_at MOST_NESTED (forms tokens.now)) result }
{
    repeat(&StepTurns { alloc, limits }, Steps::new(alloc), tokens)
}

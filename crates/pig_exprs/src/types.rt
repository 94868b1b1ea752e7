ghost use Rattle.std.specs.Prelude.{◌≡◌, [], ◌∷◌, IfOk, length, map, option_map};
ghost use Rattle.pig_exprs.specs.Grammar.{Forms, scalar_of};
ghost use Rattle.pig_exprs.specs.Nests.{Nests};
ghost use Rattle.pig_exprs.specs.Reader.{forms, Gives, field_at, schema_at, tuple_at, bag_rows_at, bag_at, map_at, cast_type_with, type_with, type_at};

use crate::reading::{ParseFault, Rule, after_symbol, close_paren, listed};
use crate::{form, symbol, word};
use pig_syntax::{FieldTree, Fields, Keyword, Symbol, Token, TokenForm, TypeTree};
use pig_value::Boxed;
use std::alloc::Global;

// Types whose brackets nest less deep than `depth`, by a function that reads them.
#[derive(Clone, Copy)]
pub struct TypesWithin<F> {
    alloc: Global,
    depth: u32,
    function: F,
}

impl<F: Fn(Global, &[Token], u32) -> Result<(TypeTree, &[Token]), ParseFault>> Rule
    for TypesWithin<F> {
    type Tree = TypeTree;

    ghost ready = { λ r. Nests type_at r.depth (F.pre r.function) (F.post r.function) };

    ghost finds = { λ r. type_at r.depth };

    fn read<'a>(&self, tokens: &'a [Token]) -> Result<(TypeTree, &'a [Token]), ParseFault> {
        (self.function)(self.alloc, tokens, self.depth)
    }
}

// The rules of types, with the rule of the types inside brackets.
#[derive(Clone, Copy)]
pub struct TypeRules<R> {
    alloc: Global,
    inner: R,
}

// The type that a word names by itself.
fn scalar(word: Keyword) -> Option<TypeTree>
    ensures { result ≡ scalar_of word }
{
    match word {
        Keyword::Int => Some(TypeTree::Int),
        Keyword::Long => Some(TypeTree::Long),
        Keyword::Chararray => Some(TypeTree::Chararray),
        Keyword::Bytearray => Some(TypeTree::Bytearray),
        Keyword::Boolean => Some(TypeTree::Boolean),
        Keyword::Float
        | Keyword::Double
        | Keyword::BigInteger
        | Keyword::BigDecimal
        | Keyword::DateTime => Some(TypeTree::Float),
        _ => None,
    }
}

impl<R: Rule<Tree = TypeTree>> Rule for TypeRules<R> {
    type Tree = FieldTree;

    ghost ready = { λ r. R.ready r.inner };

    ghost finds = { λ r. field_at (R.finds r.inner) };

    #[tactic(auto, unfolding(crate::specs::Reader::field_at))]
    fn read<'a>(&self, tokens: &'a [Token]) -> Result<(FieldTree, &'a [Token]), ParseFault> {
        match tokens {
            [form!(Ident(name)), symbol!(Colon), rest @ ..] => {
                let (kind, rest) = self.inner.read(rest)?;
                let name = name.copy(self.alloc)?;
                let kind = Some(kind);
                Ok((FieldTree { name, kind }, rest))
            }
            [form!(Ident(name)), rest @ ..] => {
                let name = name.copy(self.alloc)?;
                Ok((FieldTree { name, kind: None }, rest))
            }
            _ => Err(ParseFault::Off),
        }
    }
}

impl<R: Rule<Tree = TypeTree>> TypeRules<R> {
    // Fields in parentheses.
    #[tactic(auto, unfolding(crate::specs::Reader::schema_at))]
    fn schema<'a>(&self, tokens: &'a [Token]) -> Result<(Fields, &'a [Token]), ParseFault>
        requires { R.ready self.now.inner }
        ensures { Gives (schema_at (R.finds self.now.inner) (forms tokens.now)) result }
    {
        match tokens {
            [symbol!(OpenParen), rest @ ..] => {
                let (fields, rest) = listed(self.alloc, self, rest)?;
                let rest = close_paren(rest)?;
                Ok((fields, rest))
            }
            _ => Err(ParseFault::Off),
        }
    }

    // Fields in parentheses, with or without the word TUPLE.
    #[tactic(auto, unfolding(crate::specs::Reader::tuple_at))]
    fn tuple<'a>(&self, tokens: &'a [Token]) -> Result<(Fields, &'a [Token]), ParseFault>
        requires { R.ready self.now.inner }
        ensures { Gives (tuple_at (R.finds self.now.inner) (forms tokens.now)) result }
    {
        match tokens {
            [word!(Tuple), rest @ ..] => self.schema(rest),
            _ => self.schema(tokens),
        }
    }

    // The fields of a bag's tuples, and the brace behind them.
    #[tactic(auto, unfolding(crate::specs::Reader::bag_rows_at))]
    fn bag_rows<'a>(&self, tokens: &'a [Token]) -> Result<(Fields, &'a [Token]), ParseFault>
        requires { R.ready self.now.inner }
        ensures { Gives (bag_rows_at (R.finds self.now.inner) (forms tokens.now)) result }
    {
        let (fields, rest) = self.tuple(tokens)?;
        let rest = after_symbol(Symbol::CloseBrace, rest)?;
        Ok((fields, rest))
    }

    // The fields of a bag's tuples in braces, behind a name of the tuple where one stands.
    #[tactic(auto, unfolding(crate::specs::Reader::bag_at))]
    fn bag<'a>(&self, tokens: &'a [Token]) -> Result<(Fields, &'a [Token]), ParseFault>
        requires { R.ready self.now.inner }
        ensures { Gives (bag_at (R.finds self.now.inner) (forms tokens.now)) result }
    {
        match tokens {
            [
                symbol!(OpenBrace),
                form!(Ident(_)),
                symbol!(Colon),
                rest @ ..,
            ] => self.bag_rows(rest),
            [symbol!(OpenBrace), rest @ ..] => self.bag_rows(rest),
            _ => Err(ParseFault::Off),
        }
    }

    // The type of a map's values in brackets, or none.
    #[tactic(auto, unfolding(crate::specs::Reader::map_at))]
    fn map<'a>(&self, tokens: &'a [Token]) -> Result<(Option<TypeTree>, &'a [Token]), ParseFault>
        requires { R.ready self.now.inner }
        ensures { Gives (map_at (R.finds self.now.inner) (forms tokens.now)) result }
    {
        match tokens {
            [symbol!(OpenBracket), symbol!(CloseBracket), rest @ ..] => Ok((None, rest)),
            [symbol!(OpenBracket), rest @ ..] => {
                let (values, rest) = self.inner.read(rest)?;
                let rest = after_symbol(Symbol::CloseBracket, rest)?;
                Ok((Some(values), rest))
            }
            _ => Err(ParseFault::Off),
        }
    }

    // The type of a map.
    fn map_type<'a>(&self, tokens: &'a [Token]) -> Result<(TypeTree, &'a [Token]), ParseFault>
        requires { R.ready self.now.inner }
        ensures { Gives (option_map (λ p. (TypeTree.Map p.0, p.1))
            (map_at (R.finds self.now.inner) (forms tokens.now))) result }
    {
        let (values, rest) = self.map(tokens)?;
        match values {
            Some(values) => {
                let values = Boxed::new(self.alloc, values)?;
                Ok((TypeTree::Map(Some(values)), rest))
            }
            None => Ok((TypeTree::Map(None), rest)),
        }
    }

    // A type that begins with a word.
    #[tactic(auto, unfolding(crate::specs::Reader::cast_type_with))]
    fn cast_type<'a>(&self, tokens: &'a [Token]) -> Result<(TypeTree, &'a [Token]), ParseFault>
        requires { R.ready self.now.inner }
        ensures { Gives (cast_type_with (R.finds self.now.inner) (forms tokens.now)) result }
    {
        match tokens {
            [word!(Tuple), rest @ ..] => {
                let (fields, rest) = self.schema(rest)?;
                Ok((TypeTree::Tuple(fields), rest))
            }
            [word!(Bag), rest @ ..] => {
                let (fields, rest) = self.bag(rest)?;
                Ok((TypeTree::Bag(fields), rest))
            }
            [word!(Map), rest @ ..] => self.map_type(rest),
            [form!(Keyword(word)), rest @ ..] => match scalar(*word) {
                Some(kind) => Ok((kind, rest)),
                None => Err(ParseFault::Off),
            },
            _ => Err(ParseFault::Off),
        }
    }

    // A type.
    #[tactic(auto, unfolding(crate::specs::Reader::type_with))]
    fn any_type<'a>(&self, tokens: &'a [Token]) -> Result<(TypeTree, &'a [Token]), ParseFault>
        requires { R.ready self.now.inner }
        ensures { Gives (type_with (R.finds self.now.inner) (forms tokens.now)) result }
    {
        match tokens {
            [symbol!(OpenParen), ..] => {
                let (fields, rest) = self.schema(tokens)?;
                Ok((TypeTree::Tuple(fields), rest))
            }
            [symbol!(OpenBrace), ..] => {
                let (fields, rest) = self.bag(tokens)?;
                Ok((TypeTree::Bag(fields), rest))
            }
            [symbol!(OpenBracket), ..] => self.map_type(tokens),
            _ => self.cast_type(tokens),
        }
    }
}

impl<F> TypeRules<TypesWithin<F>> {
    // The rules of types by those whose brackets nest less deep than `depth`, and a function that reads these.
    fn within(alloc: Global, depth: u32, function: F) -> Self
        ensures { result ≡ record {
          alloc = alloc;
          inner = record { alloc = alloc; depth = depth; function = function };
        } }
    {
        TypeRules {
            alloc,
            inner: TypesWithin {
                alloc,
                depth,
                function,
            },
        }
    }
}

// A type whose brackets nest less deep than `depth`.
#[tactic(auto, unfolding(crate::specs::Reader::type_at))]
fn type_tree(
    alloc: Global,
    tokens: &[Token],
    depth: u32,
) -> Result<(TypeTree, &[Token]), ParseFault>
    ensures { Gives (type_at depth (forms tokens.now)) result }
{
    if depth == 0 {
        return Err(ParseFault::Off);
    }
    TypeRules::within(alloc, depth - 1, type_tree).any_type(tokens)
}

// A type that begins with a word, as in a cast, whose brackets nest less deep than `depth`.
pub fn cast_type(
    alloc: Global,
    tokens: &[Token],
    depth: u32,
) -> Result<(TypeTree, &[Token]), ParseFault>
    ensures { Gives (cast_type_with (type_at depth) (forms tokens.now)) result }
{
    TypeRules::within(alloc, depth, type_tree).cast_type(tokens)
}

/// Fields in parentheses, whose types' brackets nest less deep than `depth`.
pub fn schema(alloc: Global, tokens: &[Token], depth: u32) -> Result<(Fields, &[Token]), ParseFault>
    ensures { Gives (schema_at (type_at depth) (forms tokens.now)) result }
{
    TypeRules::within(alloc, depth, type_tree).schema(tokens)
}

/// A field with its type, where one is written, whose brackets nest less deep than `depth`.
pub fn field(
    alloc: Global,
    tokens: &[Token],
    depth: u32,
) -> Result<(FieldTree, &[Token]), ParseFault>
    ensures { Gives (field_at (type_at depth) (forms tokens.now)) result }
{
    TypeRules::within(alloc, depth, type_tree).read(tokens)
}

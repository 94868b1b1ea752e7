ghost use Rattle.std.specs.Prelude.{◌≡◌, [], ◌∷◌, ◌++◌, IfOk, None, Ok, OnOk, length, map};
ghost use Rattle.std.specs.List.{list_all, list_any};
ghost use Rattle.std.specs.Option.{option_map};
ghost use Rattle.pig_value.specs.FunctionKinds.{function_kind};
ghost use Rattle.pig_value.specs.Trees.{kind_tree, kinds_list, kinds_of};
ghost use Rattle.pig_schema.specs.FieldTrees.{a_field, inner_of, named_tree, schema_tree, tree_inner, tree_kind};
ghost use Rattle.pig_typed.specs.Typed.{args_of, typed, x_call, x_field};
ghost use Rattle.pig_typing.specs.Calls.{all_held, bag_column, cast_by, cast_maybe, casting, fields_from, given, is_bytes, is_long, kind_after, one_held, sized, allows, tuple_width};
ghost use Rattle.pig_typing.specs.Parts.{typed_column, kind_in, typed_of};
ghost use Rattle.pig_typing.specs.Reader.{call_of, call_typing, function_of, kind_due, with_count};
ghost use Rattle.pig_typing.specs.Results.{Tells};
ghost use Rattle.pig_typing.specs.Typing.{call_kind, kinds_as_given};
ghost use Rattle.pig_typing.specs.Views.{column_seen, typing_tree};

use crate::columns::{Column, Typing, copied, holding, inner, kind, made, unnamed};
use crate::faults::{CheckKind, TypeFault, in_memory};
use crate::limits::within_limits;
use crate::names::narrow;
use pig_schema::{Field, Schema, copy_schema};
use pig_typed::{TExpr, TExprs, kind_of};
use pig_value::{Function, Kind, Kinds, Seq, Text, beside, copy_kind};
use std::alloc::{AllocError, Global};

// How the arguments of a function are cast.
#[derive(Debug, Clone, Copy, PartialEq, Eq, Drop)]
pub enum Casting {
    /// Bytearrays to chararrays.
    AsText,
    /// Ints to longs.
    AsLong,
    AsItIs,
}

// The function of a name.
//
// # Errors
//
// FloatType for AVG, which this profile leaves out, UnknownFunction for any other name that is no function's.
#[tactic(auto, unfolding(crate::specs::Reader::function_of))]
pub fn function(name: &str) -> Result<Function, TypeFault>
    ensures { Tells (λ f. f) (function_of name.now) result }
{
    match Function::named(name) {
        Some(function) => Ok(function),
        None => Err(TypeFault::Refused(if name == "AVG" {
            CheckKind::FloatType
        } else {
            CheckKind::UnknownFunction
        })),
    }
}

// The function, where it takes so many arguments.
//
// # Errors
//
// WrongArguments where it takes another number.
#[tactic(auto, unfolding(crate::specs::Reader::with_count))]
pub fn with_count(count: usize, function: Function) -> Result<Function, TypeFault>
    ensures { Tells (λ f. f) (with_count count function) result }
{
    if allows(function, count) {
        Ok(function)
    } else {
        Err(TypeFault::Refused(CheckKind::WrongArguments))
    }
}

fn allows(function: Function, count: usize) -> bool
    ensures { result ≡ allows function count }
{
    match function {
        Function::Concat => count > 1,
        Function::Substring => count == 3,
        Function::StartsWith | Function::EndsWith | Function::IndexOf => count == 2,
        Function::ToTuple | Function::ToBag { .. } => count > 0,
        Function::Count
        | Function::CountStar
        | Function::Sum
        | Function::Min
        | Function::Max
        | Function::Size
        | Function::IsEmpty
        | Function::Tokenize
        | Function::Abs => count == 1,
    }
}

// A function on arguments.
//
// # Errors
//
// TypeMismatch where it takes no arguments of their kinds, TooWide or TooDeep where what it gives is past the
// limits.
#[tactic(auto, unfolding(crate::specs::Reader::call_of))]
pub fn call<'a>(
    alloc: Global,
    function: Function,
    args: Seq<Typing<'a>>,
) -> Result<Typing<'a>, TypeFault>
    ensures { Tells typing_tree (call_of function (map typing_tree args.entry)) result }
{
    let kind = kind_due(alloc, function, args.as_slice())?;
    applied(alloc, function, kind, args)
}

// The kind of what it gives, within the limits.
#[tactic(auto, unfolding(crate::specs::Reader::kind_due))]
fn kind_due(alloc: Global, function: Function, args: &[Typing]) -> Result<Kind, TypeFault>
    ensures { Tells kind_tree (kind_due function (map typing_tree args.now)) result }
{
    match call_kind(alloc, function, args)? {
        Some(kind) => {
            within_limits(&kind)?;
            Ok(kind)
        }
        None => Err(TypeFault::Refused(CheckKind::TypeMismatch)),
    }
}

fn call_kind(alloc: Global, function: Function, args: &[Typing]) -> Result<Option<Kind>, TypeFault>
    ensures { Tells (option_map kind_tree)
        (Ok (call_kind function (map typing_tree args.now))) result }
{
    let casting = how_cast(function, args);
    let called = sized(function, args)?;
    let kinds = cast_kinds(alloc, casting, args)?;
    let kind = given_kind(alloc, called, &kinds)?;
    Ok(kind)
}

// The call, with its arguments as they are cast.
fn applied<'a>(
    alloc: Global,
    function: Function,
    kind: Kind,
    args: Seq<Typing<'a>>,
) -> Result<Typing<'a>, TypeFault>
    ensures { Tells typing_tree (Ok (call_typing function (map typing_tree args.entry)
        (kind_tree kind))) result }
{
    let casting = how_cast(function, args.as_slice());
    let (kind, called) = beside(kind, sized(function, args.as_slice()))?;
    let column = given(alloc, function, kind, args.as_slice())?;
    let (column, args) = beside(column, cast_args(alloc, casting, args))?;
    in_memory(made(alloc, call_on(called, args), column))
}

fn how_cast(function: Function, args: &[Typing]) -> Casting
    ensures { result ≡ casting function (kinds_as_given (map typing_tree args.now)) }
{
    match function {
        Function::Tokenize
        | Function::Substring
        | Function::StartsWith
        | Function::EndsWith
        | Function::IndexOf => Casting::AsText,
        Function::Concat => {
            if all_bytes(args) {
                Casting::AsItIs
            } else {
                Casting::AsText
            }
        }
        Function::ToBag { .. } => {
            if any_long(args) {
                Casting::AsLong
            } else {
                Casting::AsItIs
            }
        }
        Function::Count
        | Function::CountStar
        | Function::Sum
        | Function::Min
        | Function::Max
        | Function::Size
        | Function::IsEmpty
        | Function::Abs
        | Function::ToTuple => Casting::AsItIs,
    }
}

fn all_bytes(args: &[Typing]) -> bool
    ensures { result ≡ list_all is_bytes (kinds_as_given (map typing_tree args.now)) }
{
    for arg in args {
        if !bytes(kind(&arg.column)) {
            return false;
        }
    }
    true
}

fn any_long(args: &[Typing]) -> bool
    ensures { result ≡ list_any is_long (kinds_as_given (map typing_tree args.now)) }
{
    for arg in args {
        if long(kind(&arg.column)) {
            return true;
        }
    }
    false
}

fn bytes(kind: &Kind) -> bool
    ensures { result ≡ is_bytes (kind_tree kind.now) }
{
    match kind {
        Kind::Bytearray => true,
        _ => false,
    }
}

fn long(kind: &Kind) -> bool
    ensures { result ≡ is_long (kind_tree kind.now) }
{
    match kind {
        Kind::Long => true,
        _ => false,
    }
}

// The function as it is called: TOBAG knows how many fields its tuples have.
fn sized(function: Function, args: &[Typing]) -> Result<Function, TypeFault>
    ensures { Tells (λ f. f) (Ok (sized function (kinds_as_given (map typing_tree args.now))))
        result }
{
    match function {
        Function::ToBag { .. } => Ok(Function::ToBag {
            width: tuple_width(args)?,
        }),
        Function::Count
        | Function::CountStar
        | Function::Sum
        | Function::Min
        | Function::Max
        | Function::Size
        | Function::Concat
        | Function::IsEmpty
        | Function::Tokenize
        | Function::Substring
        | Function::StartsWith
        | Function::EndsWith
        | Function::IndexOf
        | Function::Abs
        | Function::ToTuple => Ok(function),
    }
}

fn tuple_width(args: &[Typing]) -> Result<Option<u32>, TypeFault>
    ensures { Tells (λ w. w) (Ok (tuple_width (kinds_as_given (map typing_tree args.now)))) result }
{
    match args {
        [first, ..] => width(kind(&first.column)),
        _ => Ok(None),
    }
}

fn counted(kinds: &[Kind]) -> Result<u32, TypeFault>
    ensures { Tells (λ n. n) (Ok (length (kinds_list (kinds_of (map kind_tree kinds.now)))))
        result }
{
    narrow(kinds.len())
}

fn width(kind: &Kind) -> Result<Option<u32>, TypeFault>
    ensures { Tells (λ w. w) (Ok (tuple_width (kind_tree kind.now ∷ []))) result }
{
    match kind {
        Kind::Tuple(fields) => Ok(Some(counted(fields.as_slice())?)),
        _ => Ok(None),
    }
}

// The kind that an argument is cast to, if it is.
fn cast_to(casting: Casting, kind: &Kind) -> Option<Kind>
    ensures { option_map kind_tree result ≡ cast_by casting (kind_tree kind.now) }
{
    match (casting, kind) {
        (Casting::AsText, Kind::Bytearray) => Some(Kind::Chararray),
        (Casting::AsLong, Kind::Int) => Some(Kind::Long),
        _ => None,
    }
}

// The kinds of the arguments as they are cast.
fn cast_kinds(alloc: Global, casting: Casting, args: &[Typing]) -> Result<Kinds, AllocError>
    ensures { IfOk result (λ ks. map kind_tree ks
        ≡ map (λ p. kind_after (cast_by casting (kind_in p)) (kind_in p))
        (map typing_tree args.now)) }
{
    let mut kinds = Vec::with_capacity(alloc, args.len())?;
    for arg in args {
        kinds.push(cast_kind(alloc, casting, kind(&arg.column))?)?;
    }
    Ok(Seq::from_vec(kinds))
}

fn cast_kind(alloc: Global, casting: Casting, kind: &Kind) -> Result<Kind, AllocError>
    ensures { IfOk result (λ k. kind_tree k
        ≡ kind_after (cast_by casting (kind_tree kind.now)) (kind_tree kind.now)) }
{
    match cast_to(casting, kind) {
        Some(to) => Ok(to),
        None => copy_kind(alloc, kind),
    }
}

// The arguments as they are cast.
fn cast_args<'a>(
    alloc: Global,
    casting: Casting,
    args: Seq<Typing<'a>>,
) -> Result<TExprs, AllocError>
    ensures { IfOk result (λ es. map typed es
        ≡ map (λ p. cast_maybe (cast_by casting (kind_in p)) (typed_of p))
        (map typing_tree args.entry)) }
{
    let mut exprs = Seq::with_capacity(alloc, args.len())?;
    for arg in args.into_vec() {
        exprs.push(cast_arg(alloc, casting, arg)?)?;
    }
    Ok(exprs)
}

fn cast_arg<'a>(alloc: Global, casting: Casting, arg: Typing<'a>) -> Result<TExpr, AllocError>
    ensures { IfOk result (λ e. typed e ≡ cast_maybe
        (cast_by casting (kind_in (typing_tree arg.entry))) (typed_of (typing_tree arg.entry))) }
{
    let Typing { expr, column } = arg;
    match cast_to(casting, kind(&column)) {
        Some(to) => Ok(TExpr::Cast { to, a: expr }),
        None => Ok(expr.into_inner()),
    }
}

// The kind that a function gives of arguments of these kinds: that of its call on a row of them.
fn given_kind(alloc: Global, function: Function, kinds: &Kinds) -> Result<Option<Kind>, TypeFault>
    ensures { Tells (option_map kind_tree)
        (Ok (function_kind function (map kind_tree kinds.now))) result }
{
    let args = fields(alloc, kinds.len())?;
    let call = call_on(function, args);
    let locals = Seq::new(alloc);
    let kind = kind_of(alloc, &call, kinds, &locals)?;
    Ok(kind)
}

fn call_on(function: Function, args: TExprs) -> TExpr
    ensures { typed result ≡ x_call function (args_of (map typed args)) }
{
    TExpr::Call { function, args }
}

fn fields(alloc: Global, count: usize) -> Result<TExprs, TypeFault>
    ensures { Tells (map typed) (Ok (fields_from 0 count)) result }
{
    let mut fields = Seq::with_capacity(alloc, count)?;
    for place in 0..count {
        let field = narrow(place)?;
        one_more(&mut fields, field)?;
    }
    Ok(fields)
}

fn one_more(fields: &mut TExprs, field: u32) -> Result<(), AllocError>
    ensures { OnOk result (map typed fields.new ≡ map typed fields.old ++ x_field field ∷ []) }
{
    fields.push(TExpr::Field(field))
}

// The column of what a function gives.
fn given(
    alloc: Global,
    function: Function,
    kind: Kind,
    args: &[Typing],
) -> Result<Field, AllocError>
    ensures { IfOk result (λ f. named_tree f
        ≡ given function (kind_tree kind) (map typed_column (map typing_tree args.now))) }
{
    match function {
        Function::ToTuple => Ok(holding(kind, columns(alloc, args)?)),
        Function::ToBag { .. } => bag_column(alloc, kind, args),
        Function::Tokenize => tokens(alloc, kind),
        Function::Count
        | Function::CountStar
        | Function::Sum
        | Function::Min
        | Function::Max
        | Function::Size
        | Function::Concat
        | Function::IsEmpty
        | Function::Substring
        | Function::StartsWith
        | Function::EndsWith
        | Function::IndexOf
        | Function::Abs => unnamed(alloc, kind),
    }
}

fn columns(alloc: Global, args: &[Typing]) -> Result<Schema, AllocError>
    ensures { IfOk result (λ s. schema_tree s ≡ map typed_column (map typing_tree args.now)) }
{
    let mut columns = Vec::with_capacity(alloc, args.len())?;
    for arg in args {
        columns.push(copied(alloc, &arg.column)?)?;
    }
    Ok(Seq::from_vec(columns))
}

// A bag of values, inside which stands what is inside the first.
fn bag_column(alloc: Global, kind: Kind, args: &[Typing]) -> Result<Field, AllocError>
    ensures { IfOk result (λ f. named_tree f
        ≡ bag_column (kind_tree kind) (map typed_column (map typing_tree args.now))) }
{
    match args {
        [first, ..] => {
            let inner = all_held(alloc, &first.column, &kind);
            let (kind, inner) = beside(kind, inner)?;
            Ok(holding(kind, inner))
        }
        [] => unnamed(alloc, kind),
    }
}

fn all_held(alloc: Global, first: &Column, bag: &Kind) -> Result<Schema, AllocError>
    ensures { IfOk result (λ s. inner_of (schema_tree s) ≡ all_held
        (tree_kind (column_seen first.now)) (tree_inner (column_seen first.now))
        (kind_tree bag.now)) }
{
    match kind(first) {
        Kind::Tuple(_) => copy_schema(alloc, inner(first)),
        _ => one_held(alloc, bag, inner(first)),
    }
}

// The one field of a bag's tuples.
fn one_held(alloc: Global, bag: &Kind, inner: &Schema) -> Result<Schema, AllocError>
    ensures { IfOk result (λ s. inner_of (schema_tree s)
        ≡ one_held (kind_tree bag.now) (inner_of (schema_tree inner.now))) }
{
    match bag {
        Kind::Bag(kinds) => match kinds.as_slice() {
            [kind, ..] => one_field(alloc, kind, inner),
            [] => Ok(Seq::new(alloc)),
        },
        _ => Ok(Seq::new(alloc)),
    }
}

fn one_field(alloc: Global, kind: &Kind, inner: &Schema) -> Result<Schema, AllocError>
    ensures { IfOk result (λ s. schema_tree s
        ≡ a_field None (kind_tree kind.now) (inner_of (schema_tree inner.now)) ∷ []) }
{
    let inner = copy_schema(alloc, inner)?;
    let kind = copy_kind(alloc, kind)?;
    let mut fields = Seq::new(alloc);
    fields.push(holding(kind, inner))?;
    Ok(fields)
}

fn tokens(alloc: Global, kind: Kind) -> Result<Field, AllocError>
    ensures { IfOk result (λ f. named_tree f ≡ given Function.Tokenize (kind_tree kind) []) }
{
    let name = Some(Text::from_str(alloc, "token")?);
    let mut inner = Seq::new(alloc);
    inner.push(Field {
        name,
        kind: Kind::Chararray,
        inner: Seq::new(alloc),
    })?;
    Ok(holding(kind, inner))
}

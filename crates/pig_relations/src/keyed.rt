ghost use Rattle.std.specs.Prelude.{◌≡◌, IfOk, map};
ghost use Rattle.std.specs.Option.{option_map};
ghost use Rattle.pig_value.specs.Trees.{kind_tree};
ghost use Rattle.pig_schema.specs.FieldTrees.{tree_kind};
ghost use Rattle.pig_typed.specs.Typed.{typed};
ghost use Rattle.pig_typing.specs.Parts.{typed_column};
ghost use Rattle.pig_typing.specs.Results.{Tells};
ghost use Rattle.pig_typing.specs.Views.{typed_tree};
ghost use Rattle.pig_plan.specs.Plans.{keyed_of as plan_keyed};
ghost use Rattle.pig_relations.specs.Aliases.{aliases_of};
ghost use Rattle.pig_relations.specs.Keyed.{cast_first, cast_keys, group_form, if_some, input_of, inputs_of, join_form, key_kinds, keyed, keyed_of, keys_kinds, rest_of};
ghost use Rattle.pig_relations.specs.Views.{fields_seen, form_of, input_tree, keyable_tree};

use crate::aliases::{Relation, Relations};
use crate::together::{all_together, widened};
use pig_plan::{KeyedInput, KeyedInputs};
use pig_schema::Field;
use pig_syntax::{Exprs, GroupInput, JoinInput};
use pig_typed::{TExpr, TExprs};
use pig_typing::{CheckKind, Locals, Scope, TypeFault, TypedExpr, TypedExprs, type_keys};
use pig_value::{Kind, Kinds, Seq, Text};
use std::alloc::{AllocError, Global};

// An input of an operator by key, as it is written.
#[derive(Clone, Copy, Drop)]
pub struct InputForm<'a> {
    pub from: &'a Text,
    pub keys: &'a Exprs,
    pub inner: bool,
}

// An input, with the relation that its alias means and its typed keys.
#[derive(Drop)]
pub struct TypedInput<'a> {
    pub alias: &'a Text,
    pub relation: &'a Relation,
    pub keys: TypedExprs,
    pub inner: bool,
}

// Inputs, and the kinds that their keys have together.
#[derive(Drop)]
pub struct Keyable<'a> {
    pub inputs: Seq<TypedInput<'a>>,
    pub kinds: Kinds,
}

// The inputs of a GROUP or COGROUP.
pub fn group_forms<'a>(
    alloc: Global,
    inputs: &'a [GroupInput],
) -> Result<Vec<InputForm<'a>>, AllocError>
    ensures { IfOk result (λ forms. map form_of forms.items ≡ map group_form inputs.now) }
{
    let mut forms = Vec::with_capacity(alloc, inputs.len())?;
    for input in inputs {
        forms.push(InputForm {
            from: &input.from,
            keys: &input.keys,
            inner: input.inner,
        })?;
    }
    Ok(forms)
}

// The inputs of a JOIN.
pub fn join_forms<'a>(
    alloc: Global,
    inputs: &'a [JoinInput],
) -> Result<Vec<InputForm<'a>>, AllocError>
    ensures { IfOk result (λ forms. map form_of forms.items ≡ map join_form inputs.now) }
{
    let mut forms = Vec::with_capacity(alloc, inputs.len())?;
    for input in inputs {
        forms.push(InputForm {
            from: &input.from,
            keys: &input.keys,
            inner: false,
        })?;
    }
    Ok(forms)
}

// The typing of the inputs of an operator by key.
//
// # Errors
//
// UnknownAlias, what a key is refused for, or SchemaMismatch where the keys of the inputs do not agree.
#[tactic(auto, unfolding(crate::specs::Keyed::keyed_of))]
pub fn type_keyed<'a>(
    alloc: Global,
    relations: &'a Relations,
    forms: &[InputForm<'a>],
) -> Result<Keyable<'a>, TypeFault>
    ensures { Tells keyable_tree (keyed_of (aliases_of relations.now) (map form_of forms.now))
        result }
{
    let inputs = type_inputs(alloc, relations, forms)?;
    match key_kinds(alloc, inputs.as_slice())? {
        Some(kinds) => Ok(Keyable { inputs, kinds }),
        None => Err(TypeFault::Refused(CheckKind::SchemaMismatch)),
    }
}

#[tactic(auto, unfolding(crate::specs::Keyed::inputs_of))]
fn type_inputs<'a>(
    alloc: Global,
    relations: &'a Relations,
    forms: &[InputForm<'a>],
) -> Result<Seq<TypedInput<'a>>, TypeFault>
    ensures { Tells (map input_tree) (inputs_of (aliases_of relations.now) (map form_of forms.now))
        result }
{
    let mut made = Seq::with_capacity(alloc, forms.len())?;
    for form in forms {
        let typed = type_input(alloc, relations, *form)?;
        made.push(typed)?;
    }
    Ok(made)
}

#[tactic(auto, unfolding(crate::specs::Keyed::input_of))]
fn type_input<'a>(
    alloc: Global,
    relations: &'a Relations,
    form: InputForm<'a>,
) -> Result<TypedInput<'a>, TypeFault>
    ensures { Tells input_tree (input_of (aliases_of relations.now) (form_of form.entry)) result }
{
    let relation = relations.find(form.from)?;
    let locals = Locals::new(alloc);
    let scope = Scope {
        columns: relation.columns.get()?,
        locals: &locals,
    };
    let keys = type_keys(alloc, form.keys, &scope)?;
    Ok(TypedInput {
        alias: form.from,
        relation,
        keys,
        inner: form.inner,
    })
}

// The kinds that the keys of all inputs have together, where there is a key.
fn key_kinds(alloc: Global, inputs: &[TypedInput]) -> Result<Option<Kinds>, AllocError>
    ensures { IfOk result (λ found. option_map (map kind_tree) found
        ≡ key_kinds (map input_tree inputs.now)) }
{
    let rows = key_rows(alloc, &*inputs)?;
    match all_together(alloc, rows.as_slice())? {
        Some(kinds) => Ok(if_some(kinds)),
        None => Ok(None),
    }
}

fn if_some(kinds: Kinds) -> Option<Kinds>
    ensures { option_map (map kind_tree) result ≡ if_some (map kind_tree kinds) }
{
    if kinds.is_empty() { None } else { Some(kinds) }
}

fn key_rows<'a, 'b>(
    alloc: Global,
    inputs: &'a [TypedInput<'b>],
) -> Result<Vec<Vec<&'a Field>>, AllocError>
    ensures { IfOk result (λ rows. map (λ row. map tree_kind (fields_seen row.items)) rows.items
        ≡ map keys_kinds (map input_tree inputs.now)) }
{
    let mut rows = Vec::with_capacity(alloc, inputs.len())?;
    for input in inputs {
        rows.push(key_columns(alloc, input.keys.as_slice())?)?;
    }
    Ok(rows)
}

// The columns of keys.
pub fn key_columns<'a>(alloc: Global, keys: &'a [TypedExpr]) -> Result<Vec<&'a Field>, AllocError>
    ensures { IfOk result (λ columns. fields_seen columns.items
        ≡ map typed_column (map typed_tree keys.now)) }
{
    let mut columns = Vec::with_capacity(alloc, keys.len())?;
    for key in keys {
        columns.push(&key.column)?;
    }
    Ok(columns)
}

// The inputs as a plan has them: an int key that stands with a long is cast.
pub fn keyed_inputs(alloc: Global, keyable: Keyable) -> Result<KeyedInputs, AllocError>
    ensures { IfOk result (λ made. map plan_keyed made
        ≡ map (keyed (map kind_tree keyable.entry.kinds)) (map input_tree keyable.entry.inputs)) }
{
    let Keyable { inputs, kinds } = keyable;
    all_inputs(alloc, inputs, kinds.as_slice())
}

fn all_inputs(
    alloc: Global,
    inputs: Seq<TypedInput>,
    kinds: &[Kind],
) -> Result<KeyedInputs, AllocError>
    ensures { IfOk result (λ made. map plan_keyed made
        ≡ map (keyed (map kind_tree kinds.now)) (map input_tree inputs.entry)) }
{
    let mut made = Seq::with_capacity(alloc, inputs.len())?;
    for input in inputs.into_vec() {
        made.push(one_input(alloc, input, kinds)?)?;
    }
    Ok(made)
}

fn one_input(alloc: Global, input: TypedInput, kinds: &[Kind]) -> Result<KeyedInput, AllocError>
    ensures { IfOk result (λ made. plan_keyed made
        ≡ keyed (map kind_tree kinds.now) (input_tree input.entry)) }
{
    let TypedInput {
        relation,
        keys,
        inner,
        ..
    } = input;
    let keys = cast_keys(alloc, keys, kinds)?;
    Ok(KeyedInput {
        input: relation.node,
        keys,
        inner,
    })
}

fn cast_keys(alloc: Global, keys: TypedExprs, kinds: &[Kind]) -> Result<TExprs, AllocError>
    ensures { IfOk result (λ es. map typed es
        ≡ cast_keys (map typed_tree keys) (map kind_tree kinds.now)) }
{
    let mut made = Seq::with_capacity(alloc, keys.len())?;
    let mut left = kinds;
    for key in keys.into_vec() {
        made.push(cast_first(alloc, key, left)?)?;
        left = rest_of(left);
    }
    Ok(made)
}

fn cast_first(alloc: Global, key: TypedExpr, kinds: &[Kind]) -> Result<TExpr, AllocError>
    ensures { IfOk result (λ e. typed e
        ≡ cast_first (typed_tree key) (map kind_tree kinds.now)) }
{
    let TypedExpr { expr, column } = key;
    match kinds {
        [kind, ..] => widened(alloc, &column.kind, kind, expr),
        [] => Ok(expr),
    }
}

fn rest_of(kinds: &[Kind]) -> &[Kind]
    ensures { map kind_tree result.now ≡ rest_of (map kind_tree kinds.now) }
{
    match kinds {
        [_, rest @ ..] => rest,
        [] => kinds,
    }
}

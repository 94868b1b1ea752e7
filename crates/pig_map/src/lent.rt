//! What a task hands on straight from the codes of an earlier wave's rows: the text of a STORE, the first rows of a LIMIT.
ghost use Rattle.std.specs.Prelude.{◌≡◌, [], ℕ, take, Some, Option, List, IfOk, IfSome};
ghost use Rattle.pig_value.specs.declared.inputs.Input.{Input};
ghost use Rattle.pig_value.specs.Texts.{rows_text};
ghost use Rattle.pig_plan.specs.Plans.{PlanOp};
ghost use Rattle.pig_physical.specs.Handed.{form_of};
ghost use Rattle.pig_physical.specs.Outs.{o_bytes, o_rows};
ghost use Rattle.pig_map.specs.Choosing.{AreLent, chosen_rows};
ghost use Rattle.pig_map.specs.Making.{AreFrom, FormBy};
ghost use Rattle.pig_map.specs.Working.{HandsOn, prior_of, stages_of, task_of};

use crate::attempt::Handing;
use crate::choosing::{Chosen, chosen_on};
use crate::parts::{operator, rows_of};
use crate::work::MapWork;
use pig_gather::add_first;
use pig_packed::{Packed, PackedBuilder};
use pig_packed_text::packed_text;
use pig_physical::{Out, OutForm, Part};
use pig_stream::marks_stand_for_what_folds;
use pig_value::{Blob, Delim, Numbers};
use std::alloc::{AllocError, Global};

// The rows of an earlier wave, and what a task's path chooses of them.
#[derive(Drop)]
struct LentRows<'o> {
    rows: &'o Packed,
    chosen: Chosen,
}

// The rows of an earlier wave that a part is, if it is such.
fn rows_of_part<'o>(work: &MapWork<'o, '_>, source: u32) -> Option<&'o Packed>
    ensures { IfSome result (λ rows. (told : Option (List Input)) → AreFrom (stages_of work.now)
        told (prior_of work.now) source work.now.task.now.part rows.now 0) }
{
    operator(work.stages, source)?;
    match work.task.part {
        Part::Output { wave, at } => rows_of(work.prior, wave, at),
        Part::Split(_) => None,
    }
}

// The rows of a task, where they are those of an earlier wave and its path only chooses fields of them.
fn lent_rows<'o>(work: &MapWork<'o, '_>) -> Result<Option<LentRows<'o>>, AllocError>
    ensures { IfOk result (λ o. IfSome o (λ lent. (told : Option (List Input))
        → AreLent (stages_of work.now) told (prior_of work.now) (task_of work.now)
        lent.rows.now lent.chosen)) }
{
    marks_stand_for_what_folds();
    let stages = work.stages;
    let way = stages.way_of(work.task);
    let Some(rows) = rows_of_part(work, way.path.source) else {
        return Ok(None);
    };
    let nodes = stages.plan().nodes();
    let path = way.path.nodes.as_slice();
    let Some(chosen) = chosen_on(work.alloc, nodes.as_slice(), stages.folded(), path)? else {
        return Ok(None);
    };
    Ok(Some(LentRows { rows, chosen }))
}

// An output of no lines, on whose path no ASSERT stands.
fn out_of_form(alloc: Global, form: OutForm) -> Out
    ensures form { result.form ≡ form }
    ensures lines { result.lines ≡ 0 }
    ensures unmet { result.unmet ≡ [] }
{
    Out {
        form,
        lines: 0,
        unmet: Numbers::new(alloc),
    }
}

fn chosen_text(
    alloc: Global,
    rows: &Packed,
    chosen: &Chosen,
    delim: Delim,
) -> Result<Vec<u8>, AllocError>
    ensures { IfOk result (λ text. text.items ≡ rows_text delim (chosen_rows chosen.now rows.now)) }
{
    packed_text(alloc, rows, chosen.places(), delim)
}

fn text_with(alloc: Global, text: Vec<u8>) -> Out
    ensures form { form_of result.form ≡ o_bytes text.items }
    ensures lines { result.lines ≡ 0 }
    ensures unmet { result.unmet ≡ [] }
{
    out_of_form(alloc, OutForm::Parts(Blob::from_vec(text)))
}

fn rows_with(alloc: Global, rows: Packed) -> Out
    ensures form { form_of result.form ≡ o_rows rows }
    ensures lines { result.lines ≡ 0 }
    ensures unmet { result.unmet ≡ [] }
{
    out_of_form(alloc, OutForm::Rows(rows))
}

// What a STORE's task hands on, where its rows are those of an earlier wave or some of their fields: no row is made of values.
fn lent_text(work: &MapWork, delim: Delim) -> Result<Option<Out>, AllocError>
    ensures { IfOk result (λ o. IfSome o (λ out. (told : Option (List Input))
        → HandsOn work.now told (λ rows form. form ≡ o_bytes (rows_text delim rows)) out)) }
{
    let Some(lent) = lent_rows(work)? else {
        return Ok(None);
    };
    let text = chosen_text(work.alloc, lent.rows, &lent.chosen, delim)?;
    Ok(Some(text_with(work.alloc, text)))
}

fn first_rows(alloc: Global, rows: &Packed, count: u64) -> Result<Packed, AllocError>
    ensures { IfOk result (λ first. first ≡ take count rows.now) }
{
    let mut built = PackedBuilder::new(alloc);
    add_first(&[rows], count, &mut built)?;
    Ok(built.finish())
}

// The first rows, where all their fields are chosen.
fn first_chosen(
    alloc: Global,
    rows: &Packed,
    chosen: &Chosen,
    count: u64,
) -> Result<Option<Packed>, AllocError>
    ensures { IfOk result (λ o. IfSome o (λ first. first
        ≡ take count (chosen_rows chosen.now rows.now))) }
{
    match chosen {
        Chosen::All => Ok(Some(first_rows(alloc, rows, count)?)),
        Chosen::At(_) => Ok(None),
    }
}

// What a LIMIT's task hands on, where its rows are those of an earlier wave: the codes of the first, and no other row is
// looked at.
fn lent_first(work: &MapWork, count: u64) -> Result<Option<Out>, AllocError>
    ensures { IfOk result (λ o. IfSome o (λ out. (told : Option (List Input))
        → HandsOn work.now told (λ rows form. form ≡ o_rows (take count rows)) out)) }
{
    let Some(lent) = lent_rows(work)? else {
        return Ok(None);
    };
    let Some(first) = first_chosen(work.alloc, lent.rows, &lent.chosen, count)? else {
        return Ok(None);
    };
    Ok(Some(rows_with(work.alloc, first)))
}

// What a task hands on straight from the codes of an earlier wave's rows, where it may.
pub fn lent_out(work: &MapWork, handing: Handing) -> Result<Option<Out>, AllocError>
    ensures { IfOk result (λ o. IfSome o (λ out. (told : Option (List Input)) (op : PlanOp) (i : ℕ)
        → HandsOn work.now told (λ rows form. FormBy (stages_of work.now) (prior_of work.now)
        work.now.task.now.node op i rows form handing) out)) }
{
    match handing {
        Handing::Text(delim) => lent_text(work, delim),
        Handing::First(count) => lent_first(work, count),
        Handing::Runs => Ok(None),
        Handing::Copied => Ok(None),
        Handing::Joined => Ok(None),
    }
}

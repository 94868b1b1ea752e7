//! LIMIT: the first rows of those that the tasks handed on.
ghost use Rattle.std.specs.Prelude.{◌≡◌, ◌++◌, map, take, IfOk, OnOk};
ghost use Rattle.std.specs.List.{flat_map};
ghost use Rattle.pig_physical.specs.Handed.{form_of, out_of};
ghost use Rattle.pig_physical.specs.Outs.{rows_in};

use pig_gather::add_first;
use pig_packed::{Packed, PackedBuilder};
use pig_physical::Out;
use std::alloc::{AllocError, Global};

/// The first so many rows of these outputs, in their order.
pub fn first_rows(alloc: Global, outs: &[Out], count: u64) -> Result<Packed, AllocError>
    ensures { IfOk result (λ rows. rows
        ≡ take count (flat_map (λ out. rows_in out.form) (map out_of outs.now))) }
{
    let lists = lists_of(alloc, outs)?;
    let mut built = PackedBuilder::new(alloc);
    add_first(lists.as_slice(), count, &mut built)?;
    Ok(built.finish())
}

// The rows of each output; one that has none is left out.
fn lists_of<'o>(alloc: Global, outs: &'o [Out]) -> Result<Vec<&'o Packed>, AllocError>
    ensures { IfOk result (λ lists. flat_map (λ list. list.now) lists.items
        ≡ flat_map (λ out. rows_in out.form) (map out_of outs.now)) }
{
    let mut lists = Vec::with_capacity(alloc, outs.len())?;
    for out in outs {
        add_list(out, &mut lists)?;
    }
    Ok(lists)
}

fn add_list<'o>(out: &'o Out, lists: &mut Vec<&'o Packed>) -> Result<(), AllocError>
    ensures { OnOk result (flat_map (λ list. list.now) lists.new.items
        ≡ flat_map (λ list. list.now) lists.old.items ++ rows_in (form_of out.now.form)) }
{
    match out.form.rows() {
        Some(rows) => {
            lists.push(rows)?;
            Ok(())
        }
        None => Ok(()),
    }
}

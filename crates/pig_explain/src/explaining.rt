//! The whole text: the checked plan, the rewritten plan and its waves.
ghost use Rattle.std.specs.Prelude.{◌≡◌, ◌++◌, OnErr, OnOk};
ghost use Rattle.pig_plan.specs.Plans.{plan_of};
ghost use Rattle.pig_explain.specs.Explained.{checked_text, explain_text, rewritten_text, waves_of_text};

use crate::nodes::put_plan;
use crate::numbering::post_order;
use crate::puts::put;
use crate::waves::put_waves;
use pig_physical::heads;
use pig_plan::{Plan, live_numbers};
use std::alloc::AllocError;

/// Appends the text of a plan as it was checked, as it was rewritten, and of its waves. Where memory is
/// wanting, the buffer holds what it held.
pub fn explain(checked: &Plan, rewritten: &Plan, out: &mut Vec<u8>) -> Result<(), AllocError>
    ensures ok { OnOk result (out.new.items ≡ out.old.items
        ++ explain_text (plan_of checked.now) (plan_of rewritten.now)) }
    ensures err { OnErr result (out.new.items ≡ out.old.items) }
{
    let mut text = Vec::new(*out.allocator());
    put_checked(checked, &mut text)?;
    put_rewritten(rewritten, &mut text)?;
    out.extend_from_slice(text.as_slice())
}

fn put_checked(plan: &Plan, out: &mut Vec<u8>) -> Result<(), AllocError>
    ensures { OnOk result (out.new.items ≡ out.old.items ++ checked_text (plan_of plan.now)) }
{
    let alloc = *out.allocator();
    let order = live_numbers(alloc, plan)?;
    put(b"checked\n", out)?;
    put_plan(plan.nodes().as_slice(), order.as_slice(), out)
}

fn put_rewritten(plan: &Plan, out: &mut Vec<u8>) -> Result<(), AllocError>
    ensures { OnOk result (out.new.items ≡ out.old.items
        ++ rewritten_text (plan_of plan.now) ++ waves_of_text (plan_of plan.now)) }
{
    let alloc = *out.allocator();
    let order = post_order(alloc, plan)?;
    let heads = heads(alloc, plan)?;
    put(b"rewritten\n", out)?;
    put_plan(plan.nodes().as_slice(), order.as_slice(), out)?;
    put(b"waves\n", out)?;
    put_waves(order.as_slice(), heads.as_slice(), out)
}

ghost use Rattle.std.specs.Prelude.{◌≡◌, ◌<◌, IfOk, length};
ghost use Rattle.pig_plan.specs.Plans.{plan_of};
ghost use Rattle.pig_plan.specs.Room.{roomy};

use pig_plan::Plan;
use std::alloc::AllocError;

// The plan with room for one node at a place: it reads nothing, and those behind it have other
// numbers.
pub fn roomy(plan: Plan, at: u32) -> Result<Plan, AllocError>
    ensures plan { IfOk result (λ q. plan_of q ≡ roomy at (plan_of plan)) }
    ensures within { IfOk result (λ q. at < length plan) }
{
    if plan.nodes().len() <= at as usize {
        return Err(AllocError);
    }
    plan.with_room(at)
}

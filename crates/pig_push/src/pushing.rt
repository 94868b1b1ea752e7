ghost use Rattle.std.specs.Prelude.{◌≡◌, ◌+◌, max, ℕ, IfOk};
ghost use Rattle.pig_plan.specs.Plans.{plan_of};
ghost use Rattle.pig_plan.specs.Rewrites.{SameMeaning};
ghost use Rattle.pig_plan.specs.Valid.{IsPlan};
ghost use Rattle.pig_moves.specs.Depths.{NestUpTo, key_levels};
ghost use Rattle.pig_moves.specs.Pushed.{AreMoves, IsPushed, IsTidy, NoneMayMove};

use crate::clearing::{cleared, known_plan};
use crate::finding::find_part;
use crate::merging::merged;
use crate::readers::readers;
use crate::sweeping::swept;
use pig_builtins::function_laws;
use pig_plan::Plan;
use std::alloc::{AllocError, Global};

// More sweeps than any plan takes.
const MOST_SWEEPS: u64 = 1 << 40;

/// A plan of the same meaning, reached by moves, in which no conjunct of a FILTER may move any
/// further.
pub fn push(alloc: Global, plan: Plan) -> Result<Plan, AllocError>
    ensures means { IfOk result (λ q. SameMeaning (plan_of plan) (plan_of q)) }
    ensures pushed { IfOk result (λ q. IsPushed (plan_of plan) (plan_of q)) }
    ensures normal { IfOk result (λ q. NoneMayMove (plan_of q)) }
    ensures shallow { IfOk result (λ q. (most : ℕ) → NestUpTo most (plan_of plan)
        → NestUpTo (max most (key_levels (plan_of plan)) + 1) (plan_of q)) }
{
    let begun = cleared(alloc, &plan)?;
    function_laws();
    known_plan(&plan);
    drop(plan);
    known_plan(&begun);
    move_all(alloc, begun)
}

// Moves until none is left. Each brings conjuncts nearer to the sources, so the sweeps end; that is
// counted and not proved, and where it did not the answer would be want of memory.
fn move_all(alloc: Global, plan: Plan) -> Result<Plan, AllocError>
    requires valid { IsPlan (plan_of plan) }
    requires tidy { IsTidy (plan_of plan) }
    ensures moves { IfOk result (λ q. AreMoves (plan_of plan) (plan_of q)) }
    ensures normal { IfOk result (λ q. NoneMayMove (plan_of q)) }
{
    let mut made = merged(alloc, plan)?;
    'sweeps: for _ in 0..MOST_SWEEPS {
        let counts = readers(alloc, &made)?;
        let Some(last) = find_part(alloc, &made, counts.as_slice())? else {
            return Ok(made);
        };
        made = swept(alloc, made, counts, last)?;
    }
    Err(AllocError)
}

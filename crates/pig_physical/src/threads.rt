//! What threads may do with a plan, its stages and what tasks hand on.
use crate::Stages;
use crate::outputs::{Out, Outs};
use crate::slicing::SlicedRun;
use pig_plan::Plan;

// Outputs may be shared and handed to other threads.
fn crosses<T: Send + Sync>() {}

/// Shows that what tasks hand on is `Send` and `Sync`.
pub fn outputs_cross_threads() {
    crosses::<SlicedRun>();
    crosses::<Out>();
    crosses::<Outs>();
}

// A thing may be shared and handed to other threads.
fn is_shared<T: Send + Sync>(_thing: &T) {}

/// Shows that a plan and its stages are `Send` and `Sync`.
pub fn stages_cross_threads(plan: &Plan, stages: &Stages) {
    is_shared(plan);
    is_shared(stages);
}

//! The laws of jobs, each as the contract of a function that does nothing.

ghost use Rattle.pig_job.specs.Laws.{StepsKeepRule, RunsKeepRule, KeptIsReached};

/// Every step keeps the rule of a job, and so does every list of steps from an opening.
pub fn steps_keep_rule()
    ensures each_step { StepsKeepRule }
    ensures from_opening { RunsKeepRule }
{}

/// The rule says exactly which jobs are reached before any worker stops: every job that meets it is.
pub fn kept_is_reached()
    ensures { KeptIsReached }
{}

//! What the numbers and the ASSERTs of a run are.
ghost use Rattle.pig_collect.specs.Laws.{RunsReadLines, RunsTellTheFirstUnmet, WhatIsLeftTellsTheSame};

use pig_cutter::stages_give_meaning;
use pig_driver::what_is_left_stands;

/// The tasks of a run read the lines of each LOAD, once for each task path that begins at it.
pub fn runs_read_lines()
    ensures { RunsReadLines }
{}

/// The least statement that tasks of a run tell of is that of the first live ASSERT that the
/// meaning does not meet.
pub fn runs_tell_the_first_unmet()
    ensures { RunsTellTheFirstUnmet }
{
    stages_give_meaning();
}

/// What is left of outputs, where no wave is still to look at them, tells what all of them tell.
pub fn what_is_left_tells_the_same()
    ensures { WhatIsLeftTellsTheSame }
{
    what_is_left_stands();
}

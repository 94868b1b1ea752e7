ghost use Rattle.pig_cutter.specs.Laws.{StagesGiveMeaning};

use pig_algebra::parts_make_the_rows;

/// Outputs that are the values of all tasks, wave by wave, give the meaning of the plan: what bare LIMITs kept is valid, the
/// outputs of each live boundary node are its rows, the parts of each STORE hold the texts of its rows, and tasks tell of
/// just the live ASSERTs that are not met.
pub fn stages_give_meaning()
    ensures { StagesGiveMeaning }
{
    parts_make_the_rows();
}

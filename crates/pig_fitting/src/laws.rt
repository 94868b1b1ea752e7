ghost use Rattle.pig_fitting.specs.Laws.{LoadFits, MapFormFits, PartFits, RankFormFits, ReduceFormFits};

use pig_algebra::parts_make_the_rows;
use pig_builtins::function_laws;

/// The rows of a LOAD's lines are of the kinds that the plan gives, whatever the lines are.
pub fn loads_fit()
    ensures { LoadFits }
{}

/// The rows of the partition that a task reads are of the kinds of its source, where the output
/// fits that they stand in.
pub fn parts_fit()
    ensures { PartFits }
{
    function_laws();
}

/// What a map or store task makes of rows that are of the kinds of its source fits it, whatever
/// these rows are; of a task that joins them with copies, where these fit, too.
pub fn map_forms_fit()
    ensures { MapFormFits }
{
    function_laws();
    parts_make_the_rows();
}

/// What a reduce task brings together of outputs that fit is rows of the kinds that its node hands
/// on; of a RANK it is rows of the kinds of its input.
pub fn reduce_forms_fit()
    ensures { ReduceFormFits }
{
    function_laws();
}

/// The rows of the partition of a rank task, each behind a long, are of the kinds that its node
/// hands on, where the outputs fit that it reads.
pub fn rank_forms_fit()
    ensures { RankFormFits }
{}

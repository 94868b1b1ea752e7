ghost use Rattle.pig_waves.specs.Laws.{PartsAreCounted, ProbesAreCounted, ProbesStandInWaves, TasksStandInWaves};

/// The tasks of a live boundary node stand in two waves, one behind the other, and those of a RANK in a third one.
pub fn waves_stand_in_turn()
    ensures { TasksStandInWaves }
{}

/// Those of a replicated JOIN, too: the first wave copies its further inputs, and the second one probes the copies.
pub fn probes_stand_in_turn()
    ensures { ProbesStandInWaves }
{}

/// The parts of a node are as many as are counted from the sizes of inputs, and of a replicated JOIN as many as its tasks
/// that probe.
pub fn parts_are_counted()
    ensures parts { PartsAreCounted }
    ensures probes { ProbesAreCounted }
{}

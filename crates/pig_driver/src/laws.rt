//! What the waves of stages find of those before them, what they read, and what is left when they have run.
ghost use Rattle.pig_driver.specs.Left.{WhatIsLeftStands};
ghost use Rattle.pig_driver.specs.Standing.{FewTasksFit, WavesFindWhatTheyName, WavesReadToldInputs};

/// Where the outputs of the first waves stand, the tasks of the next one find what they name.
pub fn waves_find_what_they_name()
    ensures { WavesFindWhatTheyName }
{}

/// Where stages are cut by the lengths of inputs, each task reads pieces of such lengths.
pub fn waves_read_told_inputs()
    ensures { WavesReadToldInputs }
{}

/// Where no wave is too large for a plan to be cut, and reducers are no more than a pool takes, no wave has more tasks
/// than that.
pub fn few_tasks_fit()
    ensures { FewTasksFit }
{}

/// What is looked at when all waves have run is left of their outputs.
pub fn what_is_left_stands()
    ensures { WhatIsLeftStands }
{}

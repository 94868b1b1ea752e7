ghost use Rattle.pig_shuffle.specs.Shuffling.{RunsAreOfTheNode};

/// The runs of a shuffle that is made for an input of a plan's node are those that a map task of the
/// node hands on.
pub fn runs_are_of_the_node()
    ensures { RunsAreOfTheNode }
{}

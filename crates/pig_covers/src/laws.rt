ghost use Rattle.pig_covers.specs.Laws.{NeedsAreSeen};

/// In a plan of live nodes that is cut by its needs each operator sees what it looks at.
pub fn needs_are_seen()
    ensures { NeedsAreSeen }
{}

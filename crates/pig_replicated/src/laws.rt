ghost use Rattle.pig_replicated.specs.Laws.{LookupsFindRows, LookupsSeeBags, ProbesGiveInnerJoins, ProbesGiveLeftJoins};

/// A lookup finds of its rows those with a key, sorted, and depends on its rows only as a bag.
pub fn lookups_find_rows()
    ensures rows { LookupsFindRows }
    ensures bag { LookupsSeeBags }
{}

/// Whatever lists the first input is cut into, what the probes of all its rows give is the JOIN of the whole: the inner
/// one of two or more inputs and, where the second of two fills in nulls of its width, the LEFT one.
pub fn probes_are_joins()
    ensures inner { ProbesGiveInnerJoins }
    ensures left { ProbesGiveLeftJoins }
{}

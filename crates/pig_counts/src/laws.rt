ghost use Rattle.pig_counts.specs.Laws.{EntriesAreDue, EntriesCountRows};

/// Each map task of a run hands on one entry for each row that comes to it or, where its node
/// combines, for each distinct key; a LIMIT's hands on its rows up to the count, a STORE's and a
/// replicated JOIN's none.
pub fn entries_are_due()
    ensures { EntriesAreDue }
{}

/// Where a node does not combine, a map task hands on as many entries as there are rows.
pub fn entries_count_rows()
    ensures { EntriesCountRows }
{}

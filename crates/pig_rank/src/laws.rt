ghost use Rattle.pig_rank.specs.Laws.{EachIsRankedInTheWhole, OrderedRowsAreSorted, PartitionsAreSorted, PartitionsGiveTheBag, RankSeesBags, RankedPartitionsJoin, RanksGoByPartitions, RanksSeeBags};

/// However a sorted list is cut into consecutive partitions: these, each ranked behind its start as
/// [`rank_rows`](crate::rank_rows) does, are in turn the ranked rows of the list, each row behind its rank in the list.
/// Where the list is that of an ORDER of rows by the keys, they are, as a bag, what RANK gives of the rows as they came.
pub fn ranks_go_by_partitions()
    ensures joined { RanksGoByPartitions }
    ensures each { EachIsRankedInTheWhole }
    ensures in_turn { RankedPartitionsJoin }
    ensures bag { PartitionsGiveTheBag }
{}

/// A row has the same rank among rows that come in another order, and so these get the same ranks.
pub fn ranks_see_bags()
    ensures rank { RankSeesBags }
    ensures rows { RanksSeeBags }
{}

/// What ORDER gives is sorted by the keys, and so is each partition of a sorted list.
pub fn ordered_rows_are_sorted()
    ensures rows { OrderedRowsAreSorted }
    ensures parts { PartitionsAreSorted }
{}

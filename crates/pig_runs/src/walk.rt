ghost use Rattle.std.specs.Prelude.{◌≡◌, ◌≤◌, [], drop, length, option_map, slice_get, Some, MatchOption};
ghost use Rattle.pig_runs.specs.Entries.{left_of};
ghost use Rattle.pig_runs.specs.Packed.{packed, packed_lent};

use crate::lent::Lent;
use crate::merged::Merged;
use std::marker::Model;

/// A walk over entries in their order.
///
/// Contracts see the directions, and the entries that are still to come.
#[derive(Debug, Drop)]
pub struct Walk<'m, 'r> {
    entries: &'m Merged<'r>,
    // How many entries it has passed.
    passed: usize,
}

impl<'m, 'r> Model for Walk<'m, 'r> {
    ghost use Rattle.std.specs.Prelude.{◌≤◌, length};
    ghost use Rattle.pig_runs.specs.Entries.{InDirections, coded_in_directions, left_of};

    ghost Value = { InDirections };

    ghost coded = { coded_in_directions };

    ghost view = { λ w. left_of w.passed w.entries.now };

    ghost invariant = { λ w. w.passed ≤ length w.entries.now.entries };
}

impl<'m, 'r> Walk<'m, 'r> {
    /// All entries are still to come.
    pub fn new(entries: &'m Merged<'r>) -> Walk<'m, 'r>
        ensures { result ≡ entries.now }
    {
        Walk { entries, passed: 0 }
    }

    /// The bytes of the next entry, where there is one.
    pub fn peek(&self) -> Option<Lent<'r>>
        ensures { MatchOption result (self.now.entries ≡ []) (λ lent. option_map
            (packed self.now.dirs) (slice_get self.now.entries 0) ≡ Some (packed_lent lent)) }
    {
        if self.passed < self.entries.len() {
            return Some(self.entries.lend(self.passed));
        }
        None
    }

    /// Passes the next entry, where there is one.
    pub fn skip(&mut self)
        ensures { self.new ≡ left_of 1 self.old }
    {
        if self.passed < self.entries.len() {
            self.passed += 1;
        }
    }
}

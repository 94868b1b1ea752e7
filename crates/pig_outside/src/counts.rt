// How a device counts its failures.
ghost use Rattle.std.specs.Prelude.{◌≡◌, ◌≤◌};

use crate::OutsideError;

/// How often a device has failed: in all, and in the calls that make a directory.
#[derive(Debug, Drop)]
pub struct FaultCounts {
    all: u64,
    stores: u64,
    ghost within: { stores ≤ all },
}

impl FaultCounts {
    ghost use Rattle.std.specs.Prelude.{◌<◌};
    ghost use Rattle.pig_outside.specs.Faults.{count_end};
    ghost use Rattle.pig_outside.specs.Counts.{all_faults, stores_failed};

    /// It has not failed yet.
    pub fn new() -> FaultCounts
        ensures all { all_faults result ≡ 0 }
        ensures stores { stores_failed result ≡ 0 }
    {
        FaultCounts { all: 0, stores: 0 }
    }

    /// How often it has failed in all.
    pub fn all(&self) -> u64
        ensures { result ≡ all_faults self.now }
    {
        self.all
    }

    /// One more failure, of a call that makes no directory. It is Failed, and counted, and want of memory where
    /// the count can't go on.
    pub fn fail(&mut self) -> OutsideError
        ensures later { all_faults self.old ≤ all_faults self.new }
        ensures failed { result ≡ OutsideError.Failed → all_faults self.old < all_faults self.new }
        ensures memory { result ≡ OutsideError.OutOfMemory
            → all_faults self.new ≡ all_faults self.old }
        ensures full { result ≡ OutsideError.OutOfMemory → all_faults self.old ≡ count_end }
        ensures stores { stores_failed self.new ≡ stores_failed self.old }
    {
        if self.all == u64::MAX {
            return OutsideError::OutOfMemory;
        }
        self.all += 1;
        OutsideError::Failed
    }

    /// The same of a call that makes a directory.
    pub fn fail_store(&mut self) -> OutsideError
        ensures later { all_faults self.old ≤ all_faults self.new }
        ensures stores_later { stores_failed self.old ≤ stores_failed self.new }
        ensures failed { result ≡ OutsideError.Failed → all_faults self.old < all_faults self.new }
        ensures memory { result ≡ OutsideError.OutOfMemory
            → all_faults self.new ≡ all_faults self.old }
        ensures full { result ≡ OutsideError.OutOfMemory → all_faults self.old ≡ count_end }
        ensures stores { result ≡ OutsideError.Failed
            → stores_failed self.old < stores_failed self.new }
        ensures stores_memory { result ≡ OutsideError.OutOfMemory
            → stores_failed self.new ≡ stores_failed self.old }
    {
        if self.all == u64::MAX {
            return OutsideError::OutOfMemory;
        }
        self.all += 1;
        self.stores += 1;
        OutsideError::Failed
    }
}

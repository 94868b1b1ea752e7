// The answers to errors of the system.
ghost use Rattle.std.specs.Prelude.{◌≡◌, ◌≤◌, ◌<◌};
ghost use Rattle.pig_outside.specs.Counts.{all_faults, stores_failed};

use pig_outside::{FaultCounts, OutsideError};
use std::io::{self, ErrorKind};

// The answer to an error of the system. Each but want of memory is counted.
pub fn answer(faults: &mut FaultCounts, error: io::Error) -> OutsideError
    ensures later { all_faults faults.old ≤ all_faults faults.new }
    ensures failed { result ≡ OutsideError.Failed → all_faults faults.old < all_faults faults.new }
    ensures memory { result ≡ OutsideError.OutOfMemory
        → all_faults faults.new ≡ all_faults faults.old }
    ensures stores { stores_failed faults.new ≡ stores_failed faults.old }
{
    if error.kind() == ErrorKind::OutOfMemory {
        return OutsideError::OutOfMemory;
    }
    faults.fail()
}

// The same where a directory was being made.
pub fn answer_store(faults: &mut FaultCounts, error: io::Error) -> OutsideError
    ensures later { all_faults faults.old ≤ all_faults faults.new }
    ensures failed { result ≡ OutsideError.Failed → all_faults faults.old < all_faults faults.new }
    ensures stores_later { stores_failed faults.old ≤ stores_failed faults.new }
    ensures stores { result ≡ OutsideError.Failed
        → stores_failed faults.old < stores_failed faults.new }
{
    if error.kind() == ErrorKind::OutOfMemory {
        return OutsideError::OutOfMemory;
    }
    faults.fail_store()
}

// Whether the error says that nothing stands at the path.
pub fn is_absent(error: &io::Error) -> bool {
    matches!(error.kind(), ErrorKind::NotFound | ErrorKind::NotADirectory)
}

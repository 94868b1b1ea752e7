// What a device in memory was asked. It stands in proofs alone, so a call that takes no memory can be told.
ghost use Rattle.std.specs.Prelude.{◌≡◌, List};
ghost use Rattle.std.specs.Borrow.{ftrue};
ghost use Rattle.pig_outside.specs.Calls.{DepotCall, Attempt};

use crate::Method;
use std::marker::Model;

/// One question to a device.
#[derive(Clone, Copy, Drop)]
pub enum Asked<'a> {
    /// A call of a depot.
    Call {
        method: Method,
        path: &'a str,
    },
    /// A call for at most so many bytes of a script.
    Script {
        path: &'a str,
        most: u64,
    },
    /// An attempt begins on a host that has failed so often.
    Begin {
        wave: u32,
        task: u32,
        attempt: u32,
        faults: u64,
    },
}

/// The calls of a depot and the attempts of a host so far, the oldest first.
#[derive(Drop)]
pub struct History {
    pub ghost calls: { List DepotCall },
    pub ghost begun: { List Attempt },
}

impl Model for History {
    ghost also_owns = { λ _. ftrue };
}

// It has no bytes and owns nothing.
unsafe impl Send for History {}

impl History {
    ghost use Rattle.pig_outside.specs.Asked.{nothing_asked, and_asked};

    /// Nothing was asked yet.
    pub fn new() -> History
        ensures { result ≡ nothing_asked }
    {
        History {}
    }

    /// The history with one more question.
    pub fn and(&self, _asked: &Asked<'_>) -> History
        ensures { result ≡ and_asked self.now _asked.now }
    {
        History {}
    }
}

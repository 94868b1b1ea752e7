// Which calls of a device in memory are to fail, and how often it was called.
ghost use Rattle.std.specs.Prelude.{◌≡◌, ◌≢◌, ◌+◌, ◌-◌, ◌^◌, ◌↔◌, min, Some, Err, IsTrue};
ghost use Rattle.pig_outside.specs.Faults.{HasConsoleCause, count_end};
ghost use Rattle.pig_outside.specs.Failing.{fault_count, store_fault_count, calls_made, fails_from, fails_once, count_of, IsListed, IsBehind, IsDue, IsUncalled, EndsAsDue, StoreCause};

use crate::{FaultCounts, OutsideError};
use pig_value::Seq;

// How many methods there are.
const METHODS: usize = Method::Write as usize + 1;

/// A method of a device.
#[derive(Clone, Copy, Debug, PartialEq, Eq)]
pub enum Method {
    Script,
    Pieces,
    Exists,
    Create,
    Put,
    Finish,
    Begin,
    Read,
    Write,
}

/// A call of a device in memory: its method, and its number among the calls of that method, from 1.
#[derive(Clone, Copy, Debug, PartialEq, Eq)]
pub struct Call {
    pub method: Method,
    pub number: u64,
}

/// Calls, in any order.
pub type Calls = Seq<Call>;

// The calls that are to fail, the calls of each method and of all so far, and the failures so far. Of the calls that
// are to fail some are listed; one may be given, and one from which each fails, by their numbers over all methods.
#[derive(Debug, Drop)]
pub struct Failing {
    calls: Calls,
    from: Option<u64>,
    once: Option<u64>,
    made: [u64; METHODS],
    all: u64,
    faults: FaultCounts,
}

impl Failing {
    // No call was made yet.
    pub fn new(calls: Calls) -> Failing
        ensures { IsUncalled calls result }
    {
        Failing {
            calls,
            from: None,
            once: None,
            made: [0; METHODS],
            all: 0,
            faults: FaultCounts::new(),
        }
    }

    // From this call on, counted from 1 over all methods, each call is to fail.
    pub fn fail_from(&mut self, number: u64)
        ensures { self.new ≡ fails_from number self.old }
    {
        self.from = Some(number);
    }

    // This call, counted from 1 over all methods, is to fail.
    pub fn fail_once(&mut self, number: u64)
        ensures { self.new ≡ fails_once number self.old }
    {
        self.once = Some(number);
    }

    // How often the method was called.
    pub fn made(&self, method: Method) -> u64
        ensures { result ≡ calls_made method self.now }
    {
        self.made[method as usize]
    }

    // How often a call has failed.
    pub fn faults(&self) -> u64
        ensures { result ≡ fault_count self.now }
    {
        self.faults.all()
    }

    // One more call of the method is made. Failed: it is one of those that are to fail. Out of memory: it is one of
    // them, and the count of failures can't go on.
    pub fn call(&mut self, method: Method) -> Result<(), OutsideError>
        ensures due { EndsAsDue method self.old self.new result }
        ensures cause { HasConsoleCause (fault_count self.old) (fault_count self.new) result }
        ensures stores { StoreCause method (store_fault_count self.old)
            (store_fault_count self.new) result }
        ensures full { result ≡ Err OutsideError.OutOfMemory → fault_count self.old ≡ count_end }
    {
        count(&mut self.made, method);
        self.all = self.all.saturating_add(1);
        if !self.is_due(method) {
            return Ok(());
        }
        Err(match method {
            Method::Create | Method::Put | Method::Finish => self.faults.fail_store(),
            _ => self.faults.fail(),
        })
    }

    // Whether the last call of the method was to fail.
    fn is_due(&self, method: Method) -> bool
        ensures { IsTrue result ↔ IsDue method self.now }
    {
        if is_listed(self.calls.as_slice(), method, self.made(method)) {
            return true;
        }
        if is_behind(self.from, self.all) {
            return true;
        }
        is_it(self.once, self.all)
    }
}

// Counts one more call of the method.
fn count(made: &mut [u64; METHODS], method: Method)
    ensures made { count_of method made.new ≡ min (count_of method made.old + 1) (2 ^ 64 - 1) }
    ensures others { (m : Method) → m ≢ method → count_of m made.new ≡ count_of m made.old }
{
    let place = method as usize;
    made[place] = made[place].saturating_add(1);
}

// Whether the call is one of these.
fn is_listed(calls: &[Call], method: Method, number: u64) -> bool
    ensures { IsTrue result ↔ IsListed method number calls.now }
{
    calls
        .iter()
        .any(|call| call.method == method && call.number == number)
}

// Whether all calls are to fail from one on that is at most this one.
fn is_behind(from: Option<u64>, number: u64) -> bool
    ensures { IsTrue result ↔ IsBehind from number }
{
    match from {
        Some(first) => first <= number,
        None => false,
    }
}

// Whether this is the one call that is to fail.
fn is_it(once: Option<u64>, number: u64) -> bool
    ensures { IsTrue result ↔ once ≡ Some number }
{
    match once {
        Some(one) => one == number,
        None => false,
    }
}

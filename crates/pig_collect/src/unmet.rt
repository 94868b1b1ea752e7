//! The least statement that tasks tell of.
ghost use Rattle.std.specs.Prelude.{◌≡◌, map};
ghost use Rattle.std.specs.List.{flat_map};
ghost use Rattle.pig_physical.specs.Handed.{out_of, outs_of};
ghost use Rattle.pig_physical.specs.Running.{all_unmet};
ghost use Rattle.pig_collect.specs.Tallies.{least_of, lesser};

use pig_physical::Out;
use pig_value::OutList;

// The least statement of an ASSERT that some task's rows don't meet.
pub fn least_unmet(outs: &[OutList<Out>]) -> Option<u32>
    ensures { result ≡ least_of (all_unmet (outs_of outs.now)) }
{
    let mut found = None;
    let mut left = outs;
    while let [wave, rest @ ..] = left {
        found = lesser(found, least_in(wave.as_slice()));
        left = rest;
    }
    found
}

fn least_in(outs: &[Out]) -> Option<u32>
    ensures { result ≡ least_of (flat_map (λ out. out.unmet) (map out_of outs.now)) }
{
    let mut found = None;
    let mut left = outs;
    while let [out, rest @ ..] = left {
        found = lesser(found, least_of(out.unmet.as_slice()));
        left = rest;
    }
    found
}

fn least_of(numbers: &[u32]) -> Option<u32>
    ensures { result ≡ least_of numbers.now }
{
    let mut found = None;
    let mut left = numbers;
    while let [number, rest @ ..] = left {
        found = lesser(found, Some(*number));
        left = rest;
    }
    found
}

fn lesser(a: Option<u32>, b: Option<u32>) -> Option<u32>
    ensures { result ≡ lesser a b }
{
    match (a, b) {
        (Some(m), Some(n)) => Some(m.min(n)),
        (Some(m), None) => Some(m),
        (None, b) => b,
    }
}

//! How many lines tasks read.
ghost use Rattle.std.specs.Prelude.{◌≡◌, ◌%◌, ◌^◌, map};
ghost use Rattle.pig_physical.specs.Handed.{out_of, outs_of};
ghost use Rattle.pig_collect.specs.Collecting.{lines_in};
ghost use Rattle.pig_collect.specs.Tallies.{wave_lines};

use pig_physical::Out;
use pig_value::OutList;

// The number of lines that tasks read, modulo 2 to the 64.
pub fn lines_in(outs: &[OutList<Out>]) -> u64
    ensures { result ≡ lines_in (outs_of outs.now) % 2 ^ 64 }
{
    let mut count: u64 = 0;
    let mut left = outs;
    while let [wave, rest @ ..] = left {
        count = count.wrapping_add(wave_lines(wave.as_slice()));
        left = rest;
    }
    count
}

fn wave_lines(outs: &[Out]) -> u64
    ensures { result ≡ wave_lines (map out_of outs.now) % 2 ^ 64 }
{
    let mut count: u64 = 0;
    let mut left = outs;
    while let [out, rest @ ..] = left {
        count = count.wrapping_add(out.lines);
        left = rest;
    }
    count
}

ghost use Rattle.std.specs.Prelude.{◌≡◌, ◌<◌, ◌≤◌, [], ℕ, List, length, map, OnOk, IfOk, IfErr};
ghost use Rattle.std.specs.declared.result.Result.TheVariants.{Ok, Err};
ghost use Rattle.pig_params.specs.Given.{named_of};
ghost use Rattle.pig_params.specs.Known.{AreValues};
ghost use Rattle.pig_params.specs.Making.{IsCause, PutsOutcome};
ghost use Rattle.pig_params.specs.Substitution.{IsLonger, Named, substituted};
ghost use Rattle.pig_params.specs.declared.faults.ParamFault.TheVariants as fault;

use crate::cuts::cut_at;
use crate::known::{Known, known_first};
use crate::making::Made;
use crate::putting::put_line;
use crate::{ParamFault, Params};
use std::alloc::Global;

// Puts what the lines of a script become.
fn put_lines<'a>(script: &'a [u8], known: &mut Known<'a>, made: &mut Made) -> Result<(), ParamFault>
    ensures puts { OnOk result ((given : List Named) → AreValues given [] known.old
        → PutsOutcome (substituted given script.entry.now) made.old made.new) }
    ensures cause { IfErr result (λ f. (given : List Named) → AreValues given [] known.old
        → IsCause (substituted given script.entry.now) f) }
    ensures most { made.new.most ≡ made.old.most }
{
    let mut left = script;
    let mut start = 0;
    while let Some((line, behind)) = cut_at(b'\n', left) {
        put_line(line, start, known, made)?;
        made.put(b"\n")?;
        start += line.len() + 1;
        left = behind;
    }
    put_line(left, start, known, made)
}

/// The script with the values of parameters in the place of their names, of at most `most` bytes.
///
/// In each line but those that begin with `%declare` or `%default`, `$n` and `${n}` become the value of n: that of the
/// last `%declare` above, else the given one, else that of the last `%default` above. Those two become empty lines. What
/// is put in is not looked at again.
///
/// `Missing` comes exactly at the first place where a name has no value, or where a line that begins with `%declare` or
/// `%default` is not a whole one; `TooLong` exactly where nothing is missing and the text is longer than `most`.
pub fn substitute(
    alloc: Global,
    script: &[u8],
    given: &Params,
    most: u64,
) -> Result<Vec<u8>, ParamFault>
    ensures text { IfOk result (λ made. substituted (map named_of given.now) script.now
        ≡ Ok made.items) }
    ensures length { IfOk result (λ made. length made.items ≤ most) }
    ensures missing { IfErr result (λ f. (offset : ℕ) → f ≡ fault.Missing offset
        → substituted (map named_of given.now) script.now ≡ Err offset) }
    ensures too_long { IfErr result (λ f. f ≡ fault.TooLong
        → IsLonger most (substituted (map named_of given.now) script.now)) }
{
    let mut known = known_first(alloc, given)?;
    let mut made = Made::new(alloc, most);
    put_lines(script, &mut known, &mut made)?;
    made.finish()
}

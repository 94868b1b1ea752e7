ghost use Rattle.pig_params.specs.Plain.{PlainScriptsStay};

/// A script without `%` and `$` is its own result, whatever is given.
pub fn plain_scripts_stay()
    ensures { PlainScriptsStay }
{}

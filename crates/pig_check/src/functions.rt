ghost use Rattle.pig_typing.specs.Results.{Tells, due};
ghost use Rattle.pig_typing.specs.declared.faults.CheckKind.TheVariants.{WrongArguments};
ghost use Rattle.pig_check.specs.Functions.{delimiter_by, delimiter_in};

use pig_syntax::Func;
use pig_typing::{CheckKind, TypeFault};
use pig_value::{Delim, Text};

// The delimiter that a storage function names: the tab where none is written.
//
// # Errors
//
// UnknownFunction where it is not PigStorage, WrongArguments where it has more than one argument, or one that is no
// delimiter.
#[tactic(auto, unfolding(crate::specs::Functions::delimiter_by))]
pub fn delimiter(func: &Option<Func>) -> Result<Delim, TypeFault>
    ensures { Tells (λ d. d) (delimiter_by func.now) result }
{
    match func {
        None => Ok(Delim::tab()),
        Some(func) => {
            if func.name.as_str() == "PigStorage" {
                of_arguments(func.args.as_slice())
            } else {
                Err(TypeFault::Refused(CheckKind::UnknownFunction))
            }
        }
    }
}

fn of_arguments(args: &[Text]) -> Result<Delim, TypeFault>
    ensures { Tells (λ d. d) (due WrongArguments (delimiter_in args.now)) result }
{
    match args {
        [] => Ok(Delim::tab()),
        [text] => match Delim::new(text.as_str()) {
            Ok(delim) => Ok(delim),
            Err(_) => Err(TypeFault::Refused(CheckKind::WrongArguments)),
        },
        _ => Err(TypeFault::Refused(CheckKind::WrongArguments)),
    }
}

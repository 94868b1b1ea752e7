//! Parameters of scripts: what the words of a command line give, and their values put into a script.
#![tactic(auto)]

mod cuts;
mod directives;
mod faults;
mod known;
mod laws;
mod making;
mod names;
mod putting;
mod substitution;
mod values;
mod words;

pub use faults::ParamFault;
pub use laws::plain_scripts_stay;
pub use substitution::substitute;
pub use values::{Param, Params};
pub use words::{Taken, take_params};

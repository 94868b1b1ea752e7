//! The words of a command line, and the command that they are.
//!
//! [`read_words`] takes the parameters of the script from the words, and reads the others by one simple command of clap;
//! [`words_are_one_command`] says that words are at most one command, and that it is decided whether they are one.
//!
//! `specs/CommandWords` says which words are which command. `specs/ClapWords` is the command by which clap reads them, and
//! what its answer means of the words; only private functions cite it.
#![tactic(auto)]

mod words;

pub use words::{Command, Verb, read_words, words_are_one_command};

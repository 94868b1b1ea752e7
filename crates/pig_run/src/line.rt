ghost use Rattle.std.specs.Prelude.{◌≤◌};

use pig_value::Words;

// The words of a command line, of a program with so many hosts.
#[derive(Drop)]
pub struct CommandLine<'a> {
    pub words: &'a Words,
    pub hosts: u32,
    pub ghost some: { 1 ≤ hosts },
    pub ghost few: { hosts ≤ 256 },
}

// What a row says of a call of the whole.
use pig_outside::Method;

/// A call that fails: its method, and its number among the calls of that method, from 1.
pub type Fault = (Method, u64);

/// How what is stored is shown.
#[derive(Clone, Copy, Debug, PartialEq, Eq, Drop)]
pub enum Show {
    /// The lines, ascending.
    Bags,
    /// The lines, in their order.
    Lists,
    /// Each part by itself.
    Parts,
}

/// How the top call is made: its words, what stands on the shelf, and which calls of the devices
/// fail.
#[derive(Clone, Copy, Drop)]
pub struct Scene<'t> {
    /// The words of the command line, with one space between each two.
    pub line: &'t str,
    /// The script at `s`.
    pub script: &'t str,
    /// The input at `a`.
    pub a: &'t str,
    /// The input at `b`.
    pub b: &'t str,
    /// How many hosts there are beside the first.
    pub others: u8,
    /// The calls that fail of each of the first hosts.
    pub hosts: &'t [&'t [Fault]],
    /// Of each of the first hosts the call from which on all fail, counted from 1 over all its
    /// methods; 0 is none.
    pub broken: &'t [u64],
    /// The calls that fail of the depot and of the console.
    pub faults: &'t [Fault],
    pub show: Show,
    /// Whether the ends of the waves are told.
    pub waves: bool,
}

impl<'t> Scene<'t> {
    /// A script run over an input on one host, where no call fails.
    pub fn new(script: &'t str, a: &'t str) -> Scene<'t> {
        Scene {
            line: "run s",
            script,
            a,
            b: "",
            others: 0,
            hosts: &[],
            broken: &[],
            faults: &[],
            show: Show::Bags,
            waves: false,
        }
    }
}

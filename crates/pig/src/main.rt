//! The program `pig`: it makes the devices of the real world, hands them and its words to
//! [`pig_run::pig_main`], and ends with the status of the answer.
//!
//! The devices are those of pig_files: files and folders as the depot and the hosts, and standard output as the
//! console.
#![tactic(auto)]

ghost use Rattle.std.specs.Prelude.{◌≡◌, IfOk, vec_len};

use pig_files::{FileDepot, FileHost, StdConsole};
use pig_run::{RunFault, pig_main};
use pig_value::{Text, Words};
use std::alloc::AllocError;
use std::env;
use std::io::ErrorKind;
use std::process::ExitCode;

// As many hosts as the program makes.
const HOSTS: usize = 16;

// The real devices.
#[derive(Drop)]
struct Devices {
    depot: FileDepot<HostRuntime>,
    hosts: Vec<FileHost<HostRuntime>>,
    console: StdConsole<HostRuntime>,
}

impl Devices {
    fn new(rt: &HostRuntime) -> Result<Devices, AllocError>
        ensures { IfOk result (λ d. vec_len d.hosts ≡ HOSTS) }
    {
        let alloc = rt.alloc();
        let mut hosts = Vec::new(alloc);
        for _ in 0..HOSTS {
            hosts.push(FileHost::new(rt.clone()?, alloc))?;
        }
        Ok(Devices {
            depot: FileDepot::new(rt.clone()?, alloc),
            hosts,
            console: StdConsole::new(rt.clone()?),
        })
    }
}

// The program's words without its name; none where they are not all text.
fn words(rt: &HostRuntime) -> Result<Words, AllocError> {
    let alloc = rt.alloc();
    let mut words = Words::new(alloc);
    let args = match env::args(rt) {
        Ok(args) => args,
        Err(error) if error.kind() == ErrorKind::OutOfMemory => return Err(AllocError),
        Err(_) => return Ok(words),
    };
    for word in args.skip(1) {
        words.push(Text::from_string(word))?;
    }
    Ok(words)
}

fn main(rt: HostRuntime) -> ExitCode {
    let alloc = rt.alloc();
    match (words(&rt), Devices::new(&rt)) {
        (Ok(words), Ok(devices)) => {
            let Devices {
                mut depot,
                mut hosts,
                mut console,
            } = devices;
            let outcome = pig_main(&rt, alloc, &words, &mut depot, &mut hosts, &mut console);
            ExitCode::from(outcome.status)
        }
        _ => ExitCode::from(RunFault::OutOfMemory.status()),
    }
}

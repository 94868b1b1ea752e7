// What a script leaves by crews of hosts. Where memory is wanting the process ends.
use pig_chance_tests::Chance;
use pig_outside::Method;
use pig_setting_tests::{Fault, Scene, Show, told};
use std::alloc::Global;
use std::process::Abort;
use std::thread::Threads;

/// A script over the inputs `a` and `b`.
#[derive(Clone, Copy, Drop)]
pub struct Job<'t> {
    pub script: &'t str,
    pub a: &'t str,
    pub b: &'t str,
    /// Further words of its command line.
    pub options: &'t str,
    /// Whether it stores lists.
    pub listed: bool,
}

/// Begins that fail, fifteen in all; the first of them by this number, and none by 0.
fn faults<R: Abort>(rt: &R, alloc: Global, seed: u64) -> Vec<Fault> {
    let mut chance = Chance::new(seed);
    let mut faults = Vec::new(alloc);
    if seed == 0 {
        return faults;
    }
    for _ in 0..15 {
        let number = 1 + u64::from(chance.below(9));
        faults.push((Method::Begin, number)).expect(rt, "memory");
    }
    faults
}

/// How many of these begins each host of so many has.
fn share(workers: u8) -> usize {
    match workers {
        1 => 15,
        2 => 8,
        4 => 4,
        _ => 1,
    }
}

/// What a job leaves by so many workers. A task may fail once more often than begins fail.
pub fn by_crew<R: Threads + Sync + Abort>(
    rt: &R,
    alloc: Global,
    job: &Job,
    workers: u8,
    seed: u64,
    show: Show,
) -> String {
    let faults = faults(rt, alloc, seed);
    let mut hosts = Vec::new(alloc);
    for part in faults.as_slice().chunks(share(workers).max(1)) {
        hosts.push(part).expect(rt, "memory");
    }
    let options = job.options;
    let line = format!(in alloc; "run s --workers {workers} --attempts 16 {options}");
    let line = line.expect(rt, "memory");
    let scene = Scene {
        line: line.as_str(),
        b: job.b,
        others: workers.saturating_sub(1),
        hosts: hosts.as_slice(),
        show,
        ..Scene::new(job.script, job.a)
    };
    told(rt, alloc, &scene).expect(rt, "memory")
}

/// The first crew by which a job leaves other bytes than by one worker without a failure; nothing where there is none.
pub fn first_other<R: Threads + Sync + Abort>(rt: &R, alloc: Global, job: &Job) -> String {
    let alone = by_crew(rt, alloc, job, 1, 0, Show::Parts);
    for workers in [1, 2, 4, 16] {
        for seed in [0, 1 + u64::from(workers)] {
            let got = by_crew(rt, alloc, job, workers, seed, Show::Parts);
            if got.as_str() != alone.as_str() {
                return format!(in alloc; "{workers} workers, {seed}").expect(rt, "memory");
            }
        }
    }
    String::new(alloc)
}

/// What stands in the directories, behind the answer of a run that was done.
pub fn stored(told: &str) -> &str {
    if !told.starts_with("0 ") {
        return "";
    }
    match told.split_once("\np ") {
        Some((_, rest)) => rest,
        None => "",
    }
}

// Each call of each device failing in turn over the worked rows: what is left follows by one rule.
ghost use Rattle.std.specs.Prelude.{◌≡◌};
ghost use Rattle.pig_outside.specs.Memory.{depot_shelf};

use crate::rows::{ROWS, Row, Store, worked_row};
use pig_outside::{DirState, MemoryDepot, Method};
use pig_setting_tests::{Fault, Scene, depot_of, hosts_of, told_on};
use std::alloc::Global;
use std::process::Abort;
use std::thread::Threads;

/// Which calls fail, counted from 1 over all methods of a device.
#[derive(Clone, Copy, Debug, Drop)]
enum Turn {
    /// One of the depot's.
    DepotOnce(u64),
    /// The depot's from one on.
    DepotFrom(u64),
    /// The first host's from one on.
    FirstHost(u64),
    /// The second host's from one on.
    SecondHost(u64),
    /// The console's first.
    Console,
}

/// How far a run comes.
#[derive(Clone, Copy, Debug, Drop)]
enum Reach {
    /// Something is looked up in vain.
    LookUp,
    /// One of the calls that make a STORE's directory fails: the STORE's place, and how many of
    /// these calls went before.
    Commit(usize, u64),
    /// All is stored.
    End,
}

/// How many calls look something up: for the script, for each input path, for each STORE.
fn look_ups(row: &Row) -> u64 {
    let mut calls = row.paths.saturating_add(1);
    for _ in row.stores {
        calls = calls.saturating_add(1);
    }
    calls
}

/// A directory is created, each part put into it, and it is finished.
fn commits(store: &Store) -> u64 {
    (store.parts.len() as u64).saturating_add(2)
}

/// How far a run comes of whose calls of the depot one fails.
fn reach_at(row: &Row, number: u64) -> Reach {
    let look_ups = look_ups(row);
    if number <= look_ups {
        return Reach::LookUp;
    }
    let mut before = number.saturating_sub(look_ups).saturating_sub(1);
    let mut place = 0usize;
    for store in row.stores {
        if before < commits(store) {
            return Reach::Commit(place, before);
        }
        before = before.saturating_sub(commits(store));
        place = place.saturating_add(1);
    }
    Reach::End
}

/// All calls of the depot in a run in which none fails.
fn calls(row: &Row) -> u64 {
    let mut calls = look_ups(row);
    for store in row.stores {
        calls = calls.saturating_add(commits(store));
    }
    calls
}

/// A host that fails changes nothing, as the other one does its work; nor does the console.
fn reach_of(row: &Row, turn: Turn) -> Reach {
    match turn {
        Turn::DepotOnce(number) => reach_at(row, number),
        Turn::DepotFrom(number) => reach_at(row, number),
        _ => Reach::End,
    }
}

/// Of the STORE at a place how many parts its directory then has, and whether it is marked. None:
/// there is no such directory.
fn left(store: &Store, place: usize, reach: Reach) -> Option<(u64, bool)> {
    match reach {
        Reach::LookUp => None,
        Reach::End => Some((store.parts.len() as u64, true)),
        Reach::Commit(at, before) => {
            if place < at {
                return Some((store.parts.len() as u64, true));
            }
            if place > at || before == 0 {
                return None;
            }
            Some((before.saturating_sub(1), false))
        }
    }
}

/// A directory as text: its mark, and the parts that stand in it.
fn directory<R: Abort>(rt: &R, alloc: Global, dir: &str, marked: bool, parts: &str) -> String {
    let mark = if marked { "whole" } else { "open" };
    format!(in alloc; "{dir} {mark}\n{parts}").expect(rt, "memory")
}

fn no_directory<R: Abort>(rt: &R, alloc: Global, dir: &str) -> String {
    format!(in alloc; "{dir} none\n").expect(rt, "memory")
}

/// The first parts of a STORE, each with its lines.
fn parts_due<R: Abort>(rt: &R, alloc: Global, store: &Store, count: u64) -> String {
    let mut all = String::new(alloc);
    let mut left = count;
    for part in store.parts {
        if left > 0 {
            all.push_str("part\n").expect(rt, "memory");
            all.push_str(part).expect(rt, "memory");
        }
        left = left.saturating_sub(1);
    }
    all
}

/// The directory that is due of a STORE.
fn directory_due<R: Abort>(
    rt: &R,
    alloc: Global,
    store: &Store,
    left: Option<(u64, bool)>,
) -> String {
    let Some((count, marked)) = left else {
        return no_directory(rt, alloc, store.dir);
    };
    let parts = parts_due(rt, alloc, store, count);
    directory(rt, alloc, store.dir, marked, parts.as_str())
}

/// The directories that are due.
fn directories<R: Abort>(rt: &R, alloc: Global, row: &Row, reach: Reach) -> String {
    let mut all = String::new(alloc);
    let mut place = 0usize;
    for store in row.stores {
        let text = directory_due(rt, alloc, store, left(store, place, reach));
        all.push_str(text.as_str()).expect(rt, "memory");
        place = place.saturating_add(1);
    }
    all
}

/// How many lines a STORE has.
fn count(store: &Store) -> u64 {
    let mut count = 0u64;
    for part in store.parts {
        for _ in part.lines() {
            count = count.saturating_add(1);
        }
    }
    count
}

/// The texts of a run that stores all.
fn stored<R: Abort>(rt: &R, alloc: Global, row: &Row) -> String {
    let mut stored = String::new(alloc);
    let mut all = 0u64;
    for store in row.stores {
        let (dir, lines) = (store.dir, count(store));
        let text = format!(in alloc; "stored {dir} {lines}\n").expect(rt, "memory");
        stored.push_str(text.as_str()).expect(rt, "memory");
        all = all.saturating_add(lines);
    }
    let (read, shuffled) = (row.read, row.shuffled);
    let text = format!(in alloc; "done {read} {shuffled} {all}\n").expect(rt, "memory");
    stored.push_str(text.as_str()).expect(rt, "memory");
    stored
}

/// The statement of the STORE at a place.
fn statement(row: &Row, place: usize) -> u32 {
    match row.stores.get(place) {
        Some(store) => store.statement,
        None => 0,
    }
}

/// The status, how many bare LIMITs tell their rows, and the console's text.
fn answer<R: Abort>(rt: &R, alloc: Global, row: &Row, reach: Reach) -> String {
    let kept = row.kept;
    match reach {
        Reach::LookUp => {
            String::from_str(alloc, "6 kept 0\npig: storage failed\n").expect(rt, "memory")
        }
        Reach::Commit(place, _) => {
            let at = statement(row, place);
            let text = format!(in alloc; "6 kept {kept}\npig: storage failed at statement {at}\n");
            text.expect(rt, "memory")
        }
        Reach::End => {
            let stored = stored(rt, alloc, row);
            format!(in alloc; "0 kept {kept}\n{stored}").expect(rt, "memory")
        }
    }
}

/// The same of a run whose console fails, which shows nothing.
fn unshown<R: Abort>(rt: &R, alloc: Global, row: &Row) -> String {
    let kept = row.kept;
    format!(in alloc; "10 kept {kept}\n").expect(rt, "memory")
}

/// All that is due: the answer, and the directories.
fn due<R: Abort>(rt: &R, alloc: Global, row: &Row, turn: Turn) -> String {
    let reach = reach_of(row, turn);
    let answer = match turn {
        Turn::Console => unshown(rt, alloc, row),
        _ => answer(rt, alloc, row, reach),
    };
    let directories = directories(rt, alloc, row, reach);
    let due = format!(in alloc; "{answer}{directories}").expect(rt, "memory");
    drop((answer, directories));
    due
}

/// The lines of a text, ascending.
fn ascending<R: Abort>(rt: &R, alloc: Global, text: &str) -> String {
    let mut lines = Vec::new(alloc);
    for line in text.lines() {
        lines.push(line).expect(rt, "memory");
    }
    lines.sort().expect(rt, "memory");
    let mut sorted = String::new(alloc);
    for line in lines.as_slice() {
        sorted.push_str(line).expect(rt, "memory");
        sorted.push_str("\n").expect(rt, "memory");
    }
    sorted
}

/// The lines of a part, ascending where it is of no list.
fn lines<R: Abort>(rt: &R, alloc: Global, list: bool, part: &[u8]) -> String {
    let text = String::from_utf8_lossy(alloc, part).expect(rt, "memory");
    if list {
        return text;
    }
    ascending(rt, alloc, text.as_str())
}

/// All parts that stand in a directory, each with its lines.
fn parts_of<R: Abort>(rt: &R, alloc: Global, list: bool, state: &DirState) -> String {
    let mut all = String::new(alloc);
    for part in state.parts.as_slice() {
        let text = lines(rt, alloc, list, part.as_slice());
        all.push_str("part\n").expect(rt, "memory");
        all.push_str(text.as_str()).expect(rt, "memory");
    }
    all
}

/// What stands in a STORE's directory.
fn standing<R: Abort>(rt: &R, alloc: Global, store: &Store, depot: &MemoryDepot) -> String {
    let Some(state) = depot.dir(store.dir) else {
        return no_directory(rt, alloc, store.dir);
    };
    let parts = parts_of(rt, alloc, store.list, state);
    directory(rt, alloc, store.dir, state.marked, parts.as_str())
}

/// What stands in the directories of a row, behind the answer of what is told.
fn made<R: Abort>(rt: &R, alloc: Global, row: &Row, told: &str, depot: &MemoryDepot) -> String {
    let (answer, _) = told.split_once("\np ").unwrap_or((told, ""));
    let mut made = format!(in alloc; "{answer}\n").expect(rt, "memory");
    for store in row.stores {
        let text = standing(rt, alloc, store, depot);
        made.push_str(text.as_str()).expect(rt, "memory");
    }
    made
}

fn set(depot: &mut MemoryDepot, turn: Turn)
    ensures { depot_shelf depot.new ≡ depot_shelf depot.old }
{
    match turn {
        Turn::DepotOnce(number) => depot.fail_once(number),
        Turn::DepotFrom(number) => depot.fail_from(number),
        _ => {}
    }
}

/// From which call on each host fails; 0 is none.
fn broken(turn: Turn) -> [u64; 2] {
    match turn {
        Turn::FirstHost(number) => [number, 0],
        Turn::SecondHost(number) => [0, number],
        _ => [0, 0],
    }
}

fn of_console(turn: Turn) -> &'static [Fault] {
    match turn {
        Turn::Console => &[(Method::Write, 1)],
        _ => &[],
    }
}

/// What is left of a row on two hosts.
fn got<R: Threads + Sync + Abort>(rt: &R, alloc: Global, row: &Row, turn: Turn) -> String {
    let broken = broken(turn);
    let scene = Scene {
        line: row.line,
        b: row.b,
        others: 1,
        broken: &broken,
        faults: of_console(turn),
        ..Scene::new(row.script, row.a)
    };
    let mut depot = depot_of(alloc, &scene).expect(rt, "memory");
    let mut hosts = hosts_of(alloc, &scene).expect(rt, "memory");
    set(&mut depot, turn);
    let told = told_on(rt, alloc, &scene, &mut depot, &mut hosts).expect(rt, "memory");
    let made = made(rt, alloc, row, told.as_str(), &depot);
    drop((told, depot, hosts));
    made
}

/// A row is to leave what is due.
fn check<R: Threads + Sync + Abort>(rt: &R, alloc: Global, row: &Row, turn: Turn) {
    let got = got(rt, alloc, row, turn);
    let want = due(rt, alloc, row, turn);
    assert_eq!(rt;
        got.as_str(),
        want.as_str(),
        "at {turn:?} of {}",
        row.script
    );
    drop((got, want));
}

/// A run makes no call behind one that failed, so it is all one whether the later ones fail too.
/// Behind the last call none fails.
#[test]
fn depots_fail_over_worked_rows(rt: HostRuntime) {
    let alloc = rt.alloc();
    for place in 0..ROWS {
        let row = worked_row(place);
        for number in 1..calls(row).saturating_add(3) {
            check(&rt, alloc, row, Turn::DepotOnce(number));
            check(&rt, alloc, row, Turn::DepotFrom(number));
        }
    }
}

/// Behind some call neither host has another one.
#[test]
fn hosts_and_consoles_fail_over_worked_rows(rt: HostRuntime) {
    let alloc = rt.alloc();
    for place in 0..ROWS {
        let row = worked_row(place);
        check(&rt, alloc, row, Turn::Console);
        for number in 1..32 {
            check(&rt, alloc, row, Turn::FirstHost(number));
            check(&rt, alloc, row, Turn::SecondHost(number));
        }
    }
}

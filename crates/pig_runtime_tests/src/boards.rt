//! What a board tells one pass, two, and those of four threads.
//!
//! Where memory is wanting the process ends: that drops nothing, so its proof is short.

ghost use Rattle.std.specs.Prelude.{◌≡◌, ◌+◌, ◌<◌, ◌≤◌, MatchBool};
ghost use Rattle.std.specs.Thread.{IsSync};
ghost use Rattle.pig_board.specs.View.{steps_of};
ghost use Rattle.pig_board.specs.Pass.{tasks_of, view_of, OnBoard};

use pig_board::{Board, Pass, TaskEnd};
use std::thread::{Threads, join};

fn task_end(attempts: u32, failed: u32, winner: Option<u32>) -> TaskEnd {
    TaskEnd {
        attempts,
        failed,
        winner,
    }
}

#[test]
fn one_pass(rt: HostRuntime) {
    let opened = Board::open(rt.alloc(), 2);
    let (board, mut pass) = opened.expect(&rt, "memory");
    assert!(rt; board.draw(&mut pass) == Some(0));
    assert!(rt; board.begin(&mut pass, 0) == 0);
    assert!(rt; board.begin(&mut pass, 0) == 1);
    assert!(rt; board.commit(&mut pass, 0, 1));
    assert!(rt; !board.commit(&mut pass, 0, 0));
    assert!(rt; board.closed(&mut pass, 0) == Some(1));
    assert!(rt; board.draw(&mut pass) == Some(1));
    assert!(rt; board.begin(&mut pass, 1) == 0);
    assert!(rt; board.fail(&mut pass, 1) == 1);
    assert!(rt; board.failures(&mut pass, 1) == 1);
    assert!(rt; board.draw(&mut pass) == None);
    let end = board.close(pass);
    assert!(rt; end.len() == 2);
    assert!(rt; end.task(0) == task_end(2, 0, Some(1)));
    assert!(rt; end.task(1) == task_end(1, 1, None));
}

#[test]
fn two_passes(rt: HostRuntime) {
    let opened = Board::open(rt.alloc(), 1);
    let (board, mut pass) = opened.expect(&rt, "memory");
    let mut other = board.split(&mut pass);
    assert!(rt; pass.room() == 1_073_741_824);
    assert!(rt; other.room() == 1_073_741_824);
    assert!(rt; board.draw(&mut pass) == Some(0));
    assert!(rt; board.begin(&mut pass, 0) == 0);
    assert!(rt; board.begin(&mut pass, 0) == 1);
    assert!(rt; board.fail(&mut pass, 0) == 1);
    assert!(rt; board.commit(&mut pass, 0, 1));
    assert!(rt; board.closed(&mut other, 0) == Some(1));
    assert!(rt; board.failures(&mut other, 0) == 1);
}

// Three fails in a row, and the pass begins no more until it is firm; so does each pass that is split from it. A commit
// ends the streak.
#[test]
fn aside_and_firm(rt: HostRuntime) {
    let opened = Board::open(rt.alloc(), 1);
    let (board, mut pass) = opened.expect(&rt, "memory");
    assert!(rt; board.draw(&mut pass) == Some(0));
    assert!(rt; board.begin(&mut pass, 0) == 0);
    assert!(rt; board.begin(&mut pass, 0) == 1);
    assert!(rt; board.begin(&mut pass, 0) == 2);
    assert!(rt; board.begin(&mut pass, 0) == 3);
    assert!(rt; board.fail(&mut pass, 0) == 1);
    assert!(rt; board.fail(&mut pass, 0) == 2);
    assert!(rt; pass.streak() == 2);
    assert!(rt; pass.may_begin());
    assert!(rt; board.fail(&mut pass, 0) == 3);
    assert!(rt; pass.streak() == 3);
    assert!(rt; !pass.may_begin());
    pass.firm();
    assert!(rt; pass.streak() == 3);
    assert!(rt; pass.may_begin());
    let mut other = board.split(&mut pass);
    assert!(rt; other.streak() == 3);
    assert!(rt; other.may_begin());
    assert!(rt; board.begin(&mut other, 0) == 4);
    assert!(rt; board.commit(&mut other, 0, 4));
    assert!(rt; other.streak() == 0);
    board.join(&mut other, pass);
    assert!(rt; other.streak() == 3);
    assert!(rt; !board.commit(&mut other, 0, 3));
    assert!(rt; other.streak() == 0);
}

// What a worker was told: the number that it drew, and for each of four tasks one more than its attempt that won.
#[derive(Clone, Copy)]
struct Told {
    drawn: u32,
    won: [u32; 4],
}

// Tries task `t`: the attempt fails, or it is committed. The answer is one more than the attempt that won, or 0.
fn try_task(board: &Board, pass: &mut Pass, t: u32, fails: bool) -> u32
    requires board { OnBoard board.now pass.old }
    requires task { t < tasks_of board.now }
    requires drawn { t < (view_of pass.old).known }
    requires room { 1 < (view_of pass.old).room }
    requires streak { (view_of pass.old).streak ≤ 1 }
    ensures board { OnBoard board.now pass.new }
    ensures steps { steps_of (view_of pass.new) ≡ steps_of (view_of pass.old) }
    ensures known { (view_of pass.new).known ≡ (view_of pass.old).known }
    ensures room { (view_of pass.old).room ≤ (view_of pass.new).room + 2 }
    ensures streak { MatchBool fails ((view_of pass.new).streak ≤ 1 + (view_of pass.old).streak)
        ((view_of pass.new).streak ≡ 0) }
{
    let attempt = board.begin(pass, t);
    if fails {
        board.fail(pass, t);
        return 0;
    }
    let won = board.commit(pass, t, attempt);
    if won {
        return attempt.wrapping_add(1);
    }
    0
}

// Draws once, and tries four tasks, each once, but the one that it is numbered by fails once more.
fn worker(board: &Board, mut pass: Pass, who: u32) -> (Pass, Told)
    requires board { OnBoard board.now pass }
    requires tasks { 4 ≤ tasks_of board.now }
    requires drawn { 4 ≤ (view_of pass).known }
    requires room { 100 ≤ (view_of pass).room }
    requires streak { (view_of pass).streak ≡ 0 }
    ensures board { OnBoard board.now result.0 }
    ensures steps { steps_of (view_of result.0) ≡ steps_of (view_of pass) }
{
    let drawn = board.draw(&mut pass).unwrap_or(99);
    let mut won = [0; 4];
    for t in 0..4u32 {
        if t == who {
            try_task(board, &mut pass, t, true);
        }
        won[t as usize] = try_task(board, &mut pass, t, false);
    }
    (pass, Told { drawn, won })
}

// Two workers beside each other, each with half of the pass.
fn pair<R: Threads + Sync>(rt: &R, board: &Board, pass: Pass, who: u32) -> (Pass, Told, Told)
    requires board { OnBoard board.now pass }
    requires tasks { 4 ≤ tasks_of board.now }
    requires drawn { 4 ≤ (view_of pass).known }
    requires room { 300 ≤ (view_of pass).room }
    requires streak { (view_of pass).streak ≡ 0 }
    ensures board { OnBoard board.now result.0 }
    ensures steps { steps_of (view_of result.0) ≡ steps_of (view_of pass) }
{
    let mut left = pass;
    let right = board.split(&mut left);
    let ((mut left, one), (right, two)) = join(
        rt,
        || -> (Pass, Told)
            requires { OnBoard board.now left × (4 ≤ tasks_of board.now)
                × (4 ≤ (view_of left).known) × (100 ≤ (view_of left).room)
                × ((view_of left).streak ≡ 0) }
            ensures { OnBoard board.entry.now result.0
                × (steps_of (view_of result.0) ≡ steps_of (view_of left)) }
        { worker(board, left, who) },
        || -> (Pass, Told)
            requires { OnBoard board.now right × (4 ≤ tasks_of board.now)
                × (4 ≤ (view_of right).known) × (100 ≤ (view_of right).room)
                × ((view_of right).streak ≡ 0) }
            ensures { OnBoard board.entry.now result.0
                × (steps_of (view_of result.0) ≡ steps_of (view_of right)) }
        { worker(board, right, who ^ 1) },
    );
    board.join(&mut left, right);
    (left, one, two)
}

// Four workers on one board: each draws once and tries the same four tasks.
fn crew<R: Threads + Sync>(rt: &R, board: &Board, pass: Pass) -> (Pass, [Told; 4])
    requires board { OnBoard board.now pass }
    requires tasks { 4 ≤ tasks_of board.now }
    requires drawn { 4 ≤ (view_of pass).known }
    requires room { 700 ≤ (view_of pass).room }
    requires streak { (view_of pass).streak ≡ 0 }
    ensures board { OnBoard board.now result.0 }
    ensures steps { steps_of (view_of result.0) ≡ steps_of (view_of pass) }
{
    let mut left = pass;
    let right = board.split(&mut left);
    let ((mut left, a, b), (right, c, d)) = join(
        rt,
        || -> (Pass, Told, Told)
            requires { IsSync R.row × OnBoard board.now left × (4 ≤ tasks_of board.now)
                × (4 ≤ (view_of left).known) × (300 ≤ (view_of left).room)
                × ((view_of left).streak ≡ 0) }
            ensures { OnBoard board.entry.now result.0
                × (steps_of (view_of result.0) ≡ steps_of (view_of left)) }
        { pair(rt, board, left, 0) },
        || -> (Pass, Told, Told)
            requires { IsSync R.row × OnBoard board.now right × (4 ≤ tasks_of board.now)
                × (4 ≤ (view_of right).known) × (300 ≤ (view_of right).room)
                × ((view_of right).streak ≡ 0) }
            ensures { OnBoard board.entry.now result.0
                × (steps_of (view_of result.0) ≡ steps_of (view_of right)) }
        { pair(rt, board, right, 2) },
    );
    board.join(&mut left, right);
    (left, [a, b, c, d])
}

// The number of the attempt that won task `t`, by what the workers were told, and how many were told that they won.
fn told_winner(told: &[Told; 4], t: usize) -> (u32, u32)
    requires { t < 4 }
{
    let mut winner = 0;
    let mut winners = 0u32;
    for one in told {
        if one.won[t] > 0 {
            winner = one.won[t] - 1;
            winners = winners.wrapping_add(1);
        }
    }
    (winner, winners)
}

#[test]
fn four_workers(rt: HostRuntime) {
    let opened = Board::open(rt.alloc(), 8);
    let (board, mut pass) = opened.expect(&rt, "memory");
    assert!(rt; board.draw(&mut pass) == Some(0));
    assert!(rt; board.draw(&mut pass) == Some(1));
    assert!(rt; board.draw(&mut pass) == Some(2));
    assert!(rt; board.draw(&mut pass) == Some(3));
    let (pass, told) = crew(&rt, &board, pass);
    let end = board.close(pass);
    let mut drawn = 0u32;
    for one in &told {
        assert!(rt; one.drawn < 8);
        drawn |= 1 << one.drawn;
    }
    assert!(rt; drawn == 0b1111_0000);
    for t in 0..4u32 {
        let (winner, winners) = told_winner(&told, t as usize);
        assert!(rt; winners == 1);
        assert!(rt; end.task(t) == task_end(5, 1, Some(winner)));
    }
}

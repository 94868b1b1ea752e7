//! The calls of a board.

ghost use Rattle.std.specs.Prelude.{◌≡◌, ◌^◌, ◌<◌, ◌≤◌, true, false, length, slice_index, count_by, All, IfOk, IfNone, MatchBool, IsTrue, None};
ghost use Rattle.pig_job.specs.Rule.{is_attempt};
ghost use Rattle.pig_board.specs.View.{IsAlone, IsDraw, IsLate, has_open, has_open_of, knows_winner, fails_of, fresh, began, won, failed_at, saw_winner, saw_count, kept_half, other_half, both};
ghost use Rattle.pig_board.specs.Pass.{tasks_of, view_of, is_firm, may_begin, OnBoard};
ghost use Rattle.pig_job.specs.Job.{aside_limit};
ghost use Rattle.pig_board.specs.declared.board.Board.{Board};
ghost use Rattle.std.specs.Slots.{slots_items, slots_len, IsFull};
ghost use Rattle.pig_board.specs.End.{AreSmall, IsEnd, end_in};
ghost use Rattle.pig_board.specs.Rule.{winner_of};
ghost use Rattle.pig_board.specs.Words.{winner_word};

use crate::board::{Board, Pass};
use crate::end::{JobEnd, TaskEnd};
use crate::rule::{
    Beginning, Both, Committing, CountLook, Drawing, Failing, Halves, RoomLook, WinnerLook,
};
use atomic_table::{Closed, Table};
use std::alloc::{AllocError, Global};

// So many words stand for each task, behind the first word of all.
const TASK_WORDS: usize = 3;

// Which of them tells how many attempts were begun, how many failed, and which one won.
const BEGUN: usize = 1;

const FAILURES: usize = 2;

const WINNER: usize = 3;

// The room of a board's first pass.
const FULL_ROOM: u64 = 2_147_483_648;

// A pass that has failed so often in a row begins no attempt, unless it is firm.
const ASIDE_LIMIT: u32 = 3;

impl Pass {
    /// So many more draws, begins and fails this pass may make.
    pub fn room(&self) -> u64
        ensures { result ≡ (view_of self.now).room }
    {
        self.room
    }

    /// How often this pass has failed since its last commit.
    pub fn streak(&self) -> u32
        ensures { result ≡ (view_of self.now).streak }
    {
        self.streak
    }

    /// Whether this pass may begin attempts: it has failed less than three times in a row, or it is firm.
    pub fn may_begin(&self) -> bool
        ensures { result ≡ may_begin self.now }
    {
        self.streak < ASIDE_LIMIT || self.is_firm
    }

    /// Makes this pass firm, which no other pass can object to, since none holds an entry or room.
    pub fn firm(&mut self)
        requires streak { aside_limit ≤ (view_of self.old).streak }
        requires alone { IsAlone (view_of self.old) }
        ensures board { (b : Board) → OnBoard b self.old → OnBoard b self.new }
        ensures view { view_of self.new ≡ view_of self.old }
        ensures firm { is_firm self.new ≡ true }
    {
        self.is_firm = true;
    }
}

impl Board {
    /// A board of `tasks` tasks, and its first pass. It takes all memory that the board ever needs.
    pub fn open(alloc: Global, tasks: u32) -> Result<(Board, Pass), AllocError>
        requires { tasks ≤ 65536 }
        ensures tasks { IfOk result (λ r. tasks_of r.0 ≡ tasks) }
        ensures board { IfOk result (λ r. OnBoard r.0 r.1) }
        ensures view { IfOk result (λ r. view_of r.1 ≡ fresh) }
        ensures firm { IfOk result (λ r. is_firm r.1 ≡ false) }
    {
        let untried = TaskEnd {
            attempts: 0,
            failed: 0,
            winner: None,
        };
        let ends = vec![in alloc; untried; tasks as usize]?;
        let words = vec![in alloc; 0u64; TASK_WORDS * tasks as usize + 1]?;
        let (table, seat) = Table::of_words(alloc, words.as_slice(), &tasks)?;
        let board = Board { table, tasks, ends };
        let pass = Pass {
            seat,
            room: FULL_ROOM,
            streak: 0,
            is_firm: false,
        };
        Ok((board, pass))
    }

    /// Draws the next number. The answer is the task of that number, or `None` where the tasks are used up.
    pub fn draw(&self, pass: &mut Pass) -> Option<u32>
        requires board { OnBoard self.now pass.old }
        requires room { 0 < (view_of pass.old).room }
        ensures board { OnBoard self.now pass.new }
        ensures drawn { IsDraw (tasks_of self.now) (view_of pass.old) (view_of pass.new) result }
        ensures firm { is_firm pass.new ≡ is_firm pass.old }
    {
        let number = self.table.shared.fetch_add::<Drawing>(&mut pass.seat, 0, 1);
        pass.room -= 1;
        if number < self.tasks as u64 {
            Some(number as u32)
        } else {
            None
        }
    }

    /// Begins an attempt at task `t`, and answers its number.
    pub fn begin(&self, pass: &mut Pass, t: u32) -> u32
        requires board { OnBoard self.now pass.old }
        requires task { t < tasks_of self.now }
        requires drawn { t < (view_of pass.old).known }
        requires room { 0 < (view_of pass.old).room }
        requires streak { may_begin pass.old ≡ true }
        ensures board { OnBoard self.now pass.new }
        ensures view { view_of pass.new ≡ began t result (view_of pass.old) }
        ensures unused { count_by (is_attempt t result) (view_of pass.old).tried ≡ 0 }
        ensures firm { is_firm pass.new ≡ is_firm pass.old }
    {
        let word = TASK_WORDS * t as usize + BEGUN;
        let number = self
            .table
            .shared
            .fetch_add::<Beginning>(&mut pass.seat, word, 1);
        pass.room -= 1;
        number as u32
    }

    /// Ends attempt `a` of task `t`, which this pass began: it wins the task, or comes late where another attempt
    /// has won, which the pass then notes.
    pub fn commit(&self, pass: &mut Pass, t: u32, a: u32) -> bool
        requires board { OnBoard self.now pass.old }
        requires under_way { has_open t a (view_of pass.old) ≡ true }
        ensures board { OnBoard self.now pass.new }
        ensures view { MatchBool result (view_of pass.new
            ≡ won t a (view_of pass.old)) (IsLate t a (view_of pass.old) (view_of pass.new)) }
        ensures firm { is_firm pass.new ≡ is_firm pass.old }
        ensures known { IsTrue result → knows_winner t (view_of pass.old) ≡ false }
    {
        let word = TASK_WORDS * t as usize + WINNER;
        let mark = a as u64 + 1;
        let found = self
            .table
            .shared
            .compare_exchange::<Committing>(&mut pass.seat, word, 0, mark);
        pass.streak = 0;
        found == 0
    }

    /// Ends the earliest attempt of task `t` that this pass has under way, as failed. The answer is the number of
    /// failures of the task, with this one, which the pass notes.
    pub fn fail(&self, pass: &mut Pass, t: u32) -> u32
        requires board { OnBoard self.now pass.old }
        requires under_way { has_open_of t (view_of pass.old) ≡ true }
        requires room { 0 < (view_of pass.old).room }
        ensures board { OnBoard self.now pass.new }
        ensures view { view_of pass.new ≡ failed_at t result (view_of pass.old) }
        ensures own { fails_of t (view_of pass.new) ≤ result }
        ensures noted { All (λ p. p.0 ≡ t → p.1 < result) (view_of pass.old).counts }
        ensures alone { IsAlone (view_of pass.old) → result ≡ fails_of t (view_of pass.new) }
        ensures firm { is_firm pass.new ≡ is_firm pass.old }
    {
        let word = TASK_WORDS * t as usize + FAILURES;
        let before = self
            .table
            .shared
            .fetch_add::<Failing>(&mut pass.seat, word, 1);
        pass.room -= 1;
        pass.streak += 1;
        before as u32 + 1
    }

    /// The winner of task `t` as its word tells it now. The pass notes it.
    pub fn closed(&self, pass: &mut Pass, t: u32) -> Option<u32>
        requires board { OnBoard self.now pass.old }
        requires task { t < tasks_of self.now }
        ensures board { OnBoard self.now pass.new }
        ensures view { view_of pass.new ≡ saw_winner t result (view_of pass.old) }
        ensures none { IfNone result (knows_winner t (view_of pass.old) ≡ false) }
        ensures alone { IsAlone (view_of pass.old) → knows_winner t (view_of pass.old) ≡ false
            → result ≡ None }
        ensures firm { is_firm pass.new ≡ is_firm pass.old }
    {
        let word = TASK_WORDS * t as usize + WINNER;
        let found = self.table.shared.load::<WinnerLook>(&mut pass.seat, word);
        winner_in(found)
    }

    /// The number of failures of task `t` as its word tells it now. The pass notes it.
    pub fn failures(&self, pass: &mut Pass, t: u32) -> u32
        requires board { OnBoard self.now pass.old }
        requires task { t < tasks_of self.now }
        ensures board { OnBoard self.now pass.new }
        ensures view { view_of pass.new ≡ saw_count t result (view_of pass.old) }
        ensures own { fails_of t (view_of pass.old) ≤ result }
        ensures noted { All (λ p. p.0 ≡ t → p.1 ≤ result) (view_of pass.old).counts }
        ensures alone { IsAlone (view_of pass.old) → result ≡ fails_of t (view_of pass.old) }
        ensures firm { is_firm pass.new ≡ is_firm pass.old }
    {
        let word = TASK_WORDS * t as usize + FAILURES;
        let found = self.table.shared.load::<CountLook>(&mut pass.seat, word);
        found as u32
    }

    /// Makes a second pass, with half of the room, rounded down, no entry, and the same notes and
    /// streak.
    pub fn split(&self, pass: &mut Pass) -> Pass
        requires { OnBoard self.now pass.old }
        ensures board { OnBoard self.now pass.new }
        ensures board_given { OnBoard self.now result }
        ensures left { view_of pass.new ≡ kept_half (view_of pass.old) }
        ensures given { view_of result ≡ other_half (view_of pass.old) }
        ensures firm { is_firm pass.new ≡ is_firm pass.old }
        ensures firm_given { is_firm result ≡ is_firm pass.old }
    {
        let seat = self.table.shared.split_seat::<Halves>(&mut pass.seat);
        let given = pass.room / 2;
        pass.room -= given;
        Pass {
            seat,
            room: given,
            streak: pass.streak,
            is_firm: pass.is_firm,
        }
    }

    /// Takes in the entries, the notes and the room of `other`, and the longer of both streaks.
    pub fn join(&self, pass: &mut Pass, other: Pass)
        requires board { OnBoard self.now pass.old }
        requires other { OnBoard self.now other }
        ensures board { OnBoard self.now pass.new }
        ensures view { view_of pass.new ≡ both (view_of pass.old) (view_of other) }
        ensures firm { is_firm pass.new ≡ is_firm pass.old }
    {
        let Pass {
            seat,
            room,
            streak,
            is_firm: _,
        } = other;
        self.table.shared.join_seat::<Both>(&mut pass.seat, seat);
        self.table.shared.load::<RoomLook>(&mut pass.seat, 0);
        pass.room += room;
        pass.streak = pass.streak.max(streak);
    }

    /// The end of the job, which no other pass can change, since none holds an entry or room.
    pub fn close(self, pass: Pass) -> JobEnd
        requires board { OnBoard self pass }
        requires alone { IsAlone (view_of pass) }
        ensures count { length result ≡ tasks_of self }
        ensures ends { IsEnd (view_of pass) result }
    {
        let Board {
            table,
            tasks,
            mut ends,
        } = self;
        let Pass { seat, .. } = pass;
        let closed = table.close_with(seat);
        for t in 0..tasks {
            ends[t as usize] = end_at(&closed, t);
        }
        closed.free();
        JobEnd { ends }
    }
}

// The attempt that a winner's word names.
fn winner_in(word: u64) -> Option<u32>
    requires { word ≤ 2 ^ 31 }
    ensures { result ≡ winner_of word }
{
    if word == 0 {
        None
    } else {
        Some((word - 1) as u32)
    }
}

// The word `i` of a closed table.
fn word_at(closed: &Closed<(), Global>, i: usize) -> u64
    requires { IsFull closed.now.words × (i < slots_len closed.now.words) }
    ensures { result ≡ slice_index (slots_items closed.now.words) i }
{
    closed.word(i)
}

// The end of task `t` that the words of a closed table tell.
fn end_at(closed: &Closed<(), Global>, t: u32) -> TaskEnd
    requires few { t < 65536 }
    requires whole { IsFull closed.now.words × (winner_word t < slots_len closed.now.words) }
    requires small { AreSmall (slots_items closed.now.words) t }
    ensures { result ≡ end_in (slots_items closed.now.words) t }
{
    let first = TASK_WORDS * t as usize;
    let attempts = word_at(closed, first + BEGUN) as u32;
    let failed = word_at(closed, first + FAILURES) as u32;
    let winner = winner_in(word_at(closed, first + WINNER));
    TaskEnd {
        attempts,
        failed,
        winner,
    }
}

//! A board and its passes, as they are kept.

ghost use Rattle.std.specs.Prelude.{◌≡◌, ◌^◌, ◌≤◌, [], vec_len};
ghost use Rattle.pig_board.specs.Words.{words_for};

use crate::end::TaskEnd;
use crate::rule::Rule;
use crate::view::View;
use atomic_table::{Seat, Table};
use std::alloc::Global;

/// The words that all workers of a job share: the next number to draw, and three words for each task, the attempts
/// begun, the failures and the winner. Each step changes or reads one word, with no lock.
#[derive(Drop)]
pub struct Board {
    pub(crate) table: Table<(), View, u32, Rule, Global>,
    pub(crate) tasks: u32,
    pub(crate) ends: Vec<TaskEnd>,
    ghost counted: { table.shared.key ≡ tasks },
    ghost words: { table.shared.table_id.words ≡ words_for tasks },
    ghost no_slots: { table.shared.table_id.slots ≡ 0 },
    ghost few: { tasks ≤ 65536 },
    ghost room_for_ends: { vec_len ends ≡ tasks },
}

/// A worker's leave to step on a board, with the room that it has: so many more draws, begins and fails it may make.
/// Contracts also see what it has drawn, tried and noted. A pass that has failed three times in a row begins no
/// attempt, unless it is firm.
#[derive(Drop)]
pub struct Pass {
    pub(crate) seat: Seat<(), View>,
    pub(crate) room: u64,
    pub(crate) streak: u32,
    pub(crate) is_firm: bool,
    ghost counted: { room ≡ seat.me.0.room },
    ghost in_a_row: { streak ≡ seat.me.0.streak },
    ghost no_slot: { seat.me.1 ≡ [] },
    ghost small: { room ≤ 2 ^ 31 },
}

//! The board's rule, and what each step on a word tells.

ghost use Rattle.pig_board.specs.View.{kept_half, other_half, both, spent, fresh};
ghost use Rattle.pig_board.specs.Told.{DrawTold, BeginTold, CommitTold, FailTold, WinnerTold, CountTold, RoomTold};

use crate::view::View;
use atomic_table::{Join, Play, Split, TableRule};

// The rule of a board's table, whose key is the number of tasks.
pub struct Rule;

impl TableRule<(), View, u32> for Rule {
    ghost use Rattle.pig_board.specs.Rule.{IsBoard};
    ghost use Rattle.pig_board.specs.View.{fresh};

    ghost holds = { λ n s. IsBoard n s.words s.views };

    ghost first = { λ _. fresh };
}

pub struct Drawing;

impl Play<(), View> for Drawing {
    ghost then = { λ st m x n. DrawTold st m x n };
}

pub struct Beginning;

impl Play<(), View> for Beginning {
    ghost then = { λ st m x n. BeginTold st m x n };
}

pub struct Committing;

impl Play<(), View> for Committing {
    ghost then = { λ st m x n. CommitTold st m x n };
}

pub struct Failing;

impl Play<(), View> for Failing {
    ghost then = { λ st m x n. FailTold st m x n };
}

pub struct WinnerLook;

impl Play<(), View> for WinnerLook {
    ghost then = { λ st m x n. WinnerTold st m x n };
}

pub struct CountLook;

impl Play<(), View> for CountLook {
    ghost then = { λ st m x n. CountTold st m x n };
}

pub struct RoomLook;

impl Play<(), View> for RoomLook {
    ghost then = { λ st m x n. RoomTold st m x n };
}

pub struct Halves;

impl Split<View> for Halves {
    ghost left = { kept_half };

    ghost right = { other_half };
}

pub struct Both;

impl Join<View> for Both {
    ghost both = { both };

    ghost spent = { spent };
}

// The library for hosts: every call of the board under the name that it has in include/pawdoku.h. Crate pawdoku_c
// exports them to C. A board goes in and comes back by value; memory is lent. Names, and parameters one by one, are
// C's: so the calls of one shape, as the three that make a move, stay apart, and so do position, digit and memory.
#![tactic(auto)]

use puzzle::Refusal;
use sudoku::{LINE, PEERS_PER_CELL};

pub mod asked;
pub mod grid;
pub mod line;
pub mod list;
pub mod played;
pub mod saved;
pub mod slots;
pub mod version;

// A move that is shown: where its slot stands in the journal, and how many of its bytes were copied.
// Zeros beside a refusal.
#[repr(C)]
#[derive(Clone, Copy)]
pub struct Shown {
    pub refusal: Refusal,
    pub offset: usize,
    pub length: usize,
}

// The digits of a note's marks, ascending, zeros behind them. C returns no bare array.
#[repr(C)]
#[derive(Clone, Copy)]
pub struct Digits {
    pub digits: [u8; LINE],
}

// The peers of a cell, ascending.
#[repr(C)]
#[derive(Clone, Copy)]
pub struct PeerCells {
    pub cells: [u8; PEERS_PER_CELL],
}

// Reading back (board/reading.rs and board/moves.rs of the original): a move as the board
// hands it out, and the board as it stood once that move and no later one had been made.
#![tactic(auto)]

use puzzle::Refusal;

pub mod error;
pub mod read;
pub mod replay;

// The reading of one move; zeros beside a refusal.
#[repr(C)]
#[derive(Clone, Copy, PartialEq, Eq)]
pub struct Reading {
    pub refusal: Refusal,
    // 2 place, 3 erase, 4 write mark, 5 strike mark
    pub kind: u8,
    pub row: u8,
    pub column: u8,
    // 0 for erase
    pub digit: u8,
    pub undone: bool,
    // counted from 1
    pub index: usize,
    pub digits: [u8; 81],
    pub notes: [u16; 81],
}

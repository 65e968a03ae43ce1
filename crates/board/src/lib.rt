// The board (of the original's board.rs the value and `open`; of board/cell.rs what
// a cell answers): one puzzle as it is being played, its test, and its opening.
#![tactic(auto)]

use puzzle::Refusal;

pub mod cell;
mod counts;
pub mod error;
pub mod open;
pub mod value;

// A board by value, with flat arrays of 81 and open fields. It goes into a call and comes back in its answer.
// Its flags are bytes, so that a host passes it as it is: number 2 speaks of flags other than 0 and 1.
#[repr(C)]
#[derive(Clone, Copy, PartialEq, Eq)]
pub struct Board {
    // 0 means none
    pub digits: [u8; 81],
    // flags are 0 or 1
    pub given: [u8; 81],
    // kept notes: mark d is the bit of value 2 to the power d
    pub notes: [u16; 81],
    pub solution: [u8; 81],
    pub solved: u8,
    pub made: usize,
    pub standing: usize,
    pub checks: usize,
}

// What a call that changes the board answers.
#[repr(C)]
#[derive(Clone, Copy, PartialEq, Eq)]
pub struct Answer {
    pub refusal: Refusal,
    pub board: Board,
}

// What a check answers: whether the digit is the solution's; false beside a refusal.
#[repr(C)]
#[derive(Clone, Copy, PartialEq, Eq)]
pub struct Checked {
    pub refusal: Refusal,
    pub right: bool,
    pub board: Board,
}

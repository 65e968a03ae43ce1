// What the console and the referee show: the drawn board with its colours, and the keypad. Each character is a
// function of the board, and its contract says which.
#![tactic(auto)]

pub mod keys;
pub mod picture;

// What a place of the drawn board shows: a character of the frame or of its labels, or one of the nine spots of a
// cell, counted as the marks are; spot 0 is the blank beside them.
#[derive(Clone, Copy)]
pub enum Spot {
    Frame(u8),
    Inside { cell: usize, spot: u8 },
}

// What a character of the drawn board is coloured for: nothing, a given, a player's digit, a cell that conflicts, or
// a cell without a digit.
#[derive(Clone, Copy, PartialEq, Eq)]
pub enum Colour {
    Plain,
    Given,
    Player,
    Clash,
    Marks,
}

// The cells that are drawn: their digits, and which of them are givens. The notes are the picture's alone: the colours
// are the same whatever is pencilled.
#[derive(Clone, Copy)]
pub struct Cells<'a> {
    pub digits: &'a [u8; 81],
    pub given: &'a [u8; 81],
}

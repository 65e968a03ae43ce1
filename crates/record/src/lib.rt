// The record (board/record.rs of the original): a board written down whole as bytes, and these bytes
// scanned and read back into items. Reopening them is defined here (specs/Reopen) and done in crate reopen.
#![tactic(auto)]

use journal::{Asked, MAX_CHECKS, MAX_MOVES, Move};
use puzzle::{Given, Refusal};
use sudoku::CELLS;

pub mod error;
pub mod items;
pub mod scan;
pub mod write;

// Bytes of the items of a record, the kind byte among them: of a given and
// of a move with a digit, of an erase, of the undone count, of a check.
pub const GIVEN_ITEM: usize = 4;

pub const MOVE_ITEM: usize = 4;

pub const ERASE_ITEM: usize = 3;

pub const UNDONE_ITEM: usize = 3;

pub const CHECK_ITEM: usize = 6;
// The longest record: every cell a given but one, all moves and all checks.
pub const RECORD_BYTES: usize = GIVEN_ITEM * (CELLS - 1)
    + MOVE_ITEM * MAX_MOVES
    + UNDONE_ITEM
    + CHECK_ITEM * MAX_CHECKS;

// An item of the record.
#[derive(Clone, Copy)]
pub enum Item {
    Given(Given),
    Played(Move),
    Undone(usize),
    Check(Asked),
}

// What writing answers: the record's length in bytes; 0 beside a refusal.
#[repr(C)]
#[derive(Clone, Copy)]
pub struct Written {
    pub refusal: Refusal,
    pub length: usize,
}

// The groups of a record's items, in their order; Count is the undone count.
#[derive(Clone, Copy, PartialEq, Eq)]
pub enum Group {
    Givens,
    Moves,
    Count,
    Checks,
}

// What a kind byte decides: the item's group, and how many bytes of body follow.
#[derive(Clone, Copy, PartialEq, Eq)]
pub struct Shape {
    pub group: Group,
    pub body: usize,
}

// A whole item, and where the next one starts.
#[derive(Clone, Copy)]
pub struct Read {
    pub item: Item,
    pub next: usize,
}

// What a whole record counts.
#[derive(Clone, Copy, PartialEq, Eq)]
pub struct Scanned {
    pub givens: usize,
    pub moves: usize,
    pub undone: usize,
    pub checks: usize,
    // a check's standing is above the limit; kept to the end of the scan, since 17 of a later item goes before 18
    pub late: bool,
}

// How far a scan has come: among the givens, among the moves, or after the undone count.
#[derive(Clone, Copy, PartialEq, Eq)]
pub enum Phase {
    Givens,
    Moves,
    Checks,
}

// How far a scan has come, the next item's number and where it starts, and what was counted so far.
#[derive(Clone, Copy)]
pub struct Progress {
    pub phase: Phase,
    pub item: usize,
    pub at: usize,
    pub counts: Scanned,
}

// The puzzle (sudoku/proof.rs and sudoku/puzzle.rs of the original):
// what a setter may pose, conflicts, and when a puzzle is solved.
#![tactic(auto)]

ghost use Rattle.std.specs.Prelude.{◌≡◌, ◌≤◌, ◌-◌, get_or, drop, set};
ghost use Rattle.sudoku.specs.Grid.{at};
ghost use Rattle.puzzle.specs.Puzzle.{is_held, holds_digit, conflicts as conflicts_at, is_full, is_consistent, settled as settled_by, stands_clear, clear_cells, digits_left, keypad as keypad_of};

use orders::{BOXES, ROWS};
use sudoku::{CELLS, SIDE, in_range, peers};
use units::{clear_in, columns_clear};

pub mod answer;
pub mod error;
pub mod given_bytes;
mod orders;
pub mod text;
mod units;
pub mod vouch;

// The answer of a call: its number in the documents, 0 where the call is
// accepted; place and inner are 0 where the documents say nothing of them.
#[repr(C)]
#[derive(Clone, Copy, PartialEq, Eq)]
pub struct Refusal {
    pub number: u8,
    pub place: usize,
    pub inner: u8,
}

// A given: a position and the digit that the setter put there.
#[repr(C)]
#[derive(Clone, Copy, PartialEq, Eq, PartialOrd, Ord)]
pub struct Given {
    pub row: u8,
    pub column: u8,
    pub digit: u8,
}

// How givens stand in some bytes: three bytes each, one after the other, as
// opening gets them, or as the items of a record, each after its kind byte.
#[derive(Clone, Copy, PartialEq, Eq)]
pub enum Layout {
    Triples,
    Items,
}

// The byte at an index, and 0 past the end.
pub fn byte_at(bytes: &[u8], i: usize) -> u8
    ensures { result ≡ get_or bytes.now i 0 }
{
    bytes.get(i).copied().unwrap_or(0)
}

// The bytes from an index on; none where they end before it.
pub fn bytes_from(bytes: &[u8], start: usize) -> &[u8]
    ensures { result.now ≡ drop start bytes.now }
{
    bytes.get(start..).unwrap_or(&[])
}

// Where an entry numbered from 1 stands, as a cell's in a list of 81. None has the number 0; it stands where the first
// does.
pub fn index_of(cell: usize) -> usize
    ensures { result ≡ cell - 1 }
{
    cell.saturating_sub(1)
}

// The entry of a cell in a list of 81, and `none` past its end.
pub fn entry_at<T: Copy>(entries: &[T; 81], cell: usize, none: T) -> T
    ensures { result ≡ get_or entries.now (cell - 1) none }
{
    entries.get(index_of(cell)).copied().unwrap_or(none)
}

// An entry put in a list of 81 at a cell; past its end nothing is put.
// By an index with a test: of an array that `get_mut` wrote through, a proof knows the length alone.
pub fn put_at<T: Copy>(entries: &mut [T; 81], cell: usize, entry: T)
    ensures { entries.new ≡ set entries.old (cell - 1) entry }
{
    let at = index_of(cell);
    if at < entries.len() {
        entries[at] = entry;
    }
}

// The digit at a cell, 0 where it holds none or where the grid has no such cell.
#[tactic(auto, unfolding(sudoku::specs::Grid::at))]
pub fn digit_at(digits: &[u8; 81], cell: usize) -> u8
    ensures { result ≡ at digits.now cell }
{
    entry_at(digits, cell, 0)
}

// Whether a cell holds a digit.
#[tactic(auto, unfolding(crate::specs::Puzzle::holds_digit))]
pub fn holds_digit(digits: &[u8; 81], cell: usize) -> bool
    ensures { result ≡ holds_digit digits.now cell }
{
    digit_at(digits, cell) != 0
}

// Whether one of the cells holds the digit.
fn is_held(digits: &[u8; 81], digit: u8, cells: [u8; 20]) -> bool
    ensures { result ≡ is_held digits.now digit cells }
{
    cells
        .iter()
        .any(|cell| digit_at(digits, usize::from(*cell)) == digit)
}

// Whether a cell holds a digit that a peer also holds.
#[tactic(auto, unfolding(crate::specs::Puzzle::conflicts, sudoku::specs::Tests::both))]
pub fn conflicts(digits: &[u8; 81], cell: usize) -> bool
    ensures { result ≡ conflicts_at digits.now cell }
{
    holds_digit(digits, cell) && is_held(digits, digit_at(digits, cell), peers(cell))
}

// Whether every cell holds a digit. The first empty cell answers, and until a game's last digits there is one soon.
pub fn is_full(digits: &[u8; 81]) -> bool
    ensures { result ≡ is_full digits.now }
{
    digits.iter().all(|digit| *digit != 0)
}

// Whether no cell conflicts: no column, row or box holds a digit twice.
pub fn is_consistent(digits: &[u8; 81]) -> bool
    ensures { result ≡ is_consistent digits.now }
{
    columns_clear(digits) && clear_in(digits, &ROWS) && clear_in(digits, &BOXES)
}

// The status after a digit was put into a cell, 1 for solved: a byte, as the board's in the C interface is.
// Solved is final; the full grid is the cheaper test and comes first.
#[tactic(auto, unfolding(crate::specs::Puzzle::settled, sudoku::specs::Tests::both, sudoku::specs::Tests::pick))]
pub fn settled(digits: &[u8; 81], solved: u8) -> u8
    ensures { result ≡ settled_by digits.now solved }
{
    if is_full(digits) && is_consistent(digits) {
        1
    } else {
        solved
    }
}

// Whether a cell counts for a key: it holds the digit, and no peer of it does. The digit is asked first, since most
// cells hold another one.
#[tactic(auto, unfolding(crate::specs::Puzzle::stands_clear, sudoku::specs::Tests::both))]
fn stands_clear(digits: &[u8; 81], digit: u8, cell: usize) -> bool
    ensures { result ≡ stands_clear digits.now digit cell }
{
    digit_at(digits, cell) == digit && holds_digit(digits, cell) && !conflicts(digits, cell)
}

// How many cells hold the digit and conflict with no peer: never more than nine, since no two of them share a row.
// A loop, since `filter` with `count` gives a usize, and a byte is wanted.
#[tactic(auto, using(crate::proofs::Clear::at_most_nine, sudoku::proofs::Walks::count_all), unfolding(crate::specs::Puzzle::clear_cells))]
fn clear_cells(digits: &[u8; 81], digit: u8) -> u8
    ensures { (result ≡ clear_cells digits.now digit) × (result ≤ 9) }
{
    let mut n: u8 = 0;
    for cell in 1..=CELLS {
        if stands_clear(digits, digit, cell) {
            n += 1;
        }
    }
    n
}

// Digits left for a key: nine less the cells that hold the digit and conflict with no peer.
#[tactic(auto, unfolding(crate::specs::Puzzle::digits_left))]
pub fn digits_left(digits: &[u8; 81], digit: u8) -> u8
    ensures { result ≡ digits_left digits.now digit }
{
    SIDE - clear_cells(digits, digit)
}

// The keypad whole: digits left for each of the keys 1 to 9. In one pass: nine walks take a third longer.
#[tactic(auto, using(sudoku::proofs::Grid::range_from, sudoku::proofs::Grid::range_to, crate::proofs::Keys::ahead_done))]
pub fn keypad(digits: &[u8; 81]) -> [u8; 9]
    ensures { result ≡ keypad_of digits.now }
{
    let mut left = [SIDE; 9];
    for cell in 1..=CELLS {
        let digit = digit_at(digits, cell);
        if in_range(digit) && stands_clear(digits, digit, cell) {
            left[usize::from(digit) - 1] -= 1;
        }
    }
    left
}

// The board value's test, number 2. It runs in every call, so each loop reads its arrays once and has no early exit.
ghost use Rattle.std.specs.Prelude.{◌≡◌, [], eqb};
ghost use Rattle.sudoku.specs.Tests.{pick, both, every, first};
ghost use Rattle.sudoku.specs.Grid.{in_range};
ghost use Rattle.note.specs.Note.{is_note};
ghost use Rattle.board.specs.Errors.{number_told};
ghost use Rattle.board.specs.Board.{is_board, may_stand, digit_value, note_value, solution_value, lent_tests};

use crate::Board;
use crate::error::PlayError;
use journal::{MAX_CHECKS, MAX_MOVES};
use sudoku::{CELLS, SIDE, in_range};

// The greatest flag that may stand beside a digit: a cell without one is no given.
#[tactic(auto, unfolding(sudoku::specs::Tests::pick))]
fn greatest_flag(digit: u8) -> u8
    ensures { result ≡ pick (eqb digit 0) 0 1 }
{
    u8::from(digit != 0)
}

// A cell's digit and flag, and the solution's digit. Each test is made, whatever the others say.
#[tactic(auto, unfolding(crate::specs::Board::may_stand, sudoku::specs::Tests::both, sudoku::specs::Tests::pick))]
fn cell_value(digit: u8, given: u8, right: u8) -> bool
    ensures { result ≡ both (may_stand digit given) (in_range right) }
{
    (digit <= SIDE) & (given <= greatest_flag(digit)) & in_range(right)
}

// The digits, the flags and the solution are asked in one loop: in two it takes a nanosecond more in every call.
// It goes by index, since the proof over three arrays zipped did not close.
fn cell_values(digits: &[u8; 81], given: &[u8; 81], solution: &[u8; 81]) -> bool
    ensures { result ≡ both (every (digit_value digits.now given.now) 81 1) (every (solution_value solution.now) 81 1) }
{
    let mut ok = true;
    for i in 0..CELLS {
        ok &= cell_value(digits[i], given[i], solution[i]);
    }
    ok
}

fn note_values(notes: &[u16; 81]) -> bool
    ensures { result ≡ every (note_value notes.now) 81 1 }
{
    let mut ok = true;
    for note in notes {
        ok &= note::is_note(*note);
    }
    ok
}

// Whether number 2 does not speak of the board value. The board comes by value: read through a reference to a copy that
// was just made, as a call has one in its answer, each call takes about ten nanoseconds more.
#[tactic(auto, unfolding(crate::specs::Board::is_board, sudoku::specs::Tests::both))]
pub fn is_board(board: Board) -> bool
    ensures { result ≡ is_board board }
{
    board.made <= MAX_MOVES
        && board.standing <= board.made
        && board.checks <= MAX_CHECKS
        && board.solved <= 1
        && note_values(&board.notes)
        && cell_values(&board.digits, &board.given, &board.solution)
}

// 1 and 2, which every call with a board and lent memory asks first; `fits` says that the memory has its length.
#[tactic(auto, unfolding(crate::specs::Board::lent_tests, sudoku::specs::Tests::first, sudoku::specs::Tests::pick))]
pub fn lent(board: Board, fits: bool) -> Result<(), PlayError>
    ensures { number_told result ≡ first (lent_tests fits board []) }
{
    if !fits {
        return Err(PlayError::WrongLength);
    }
    if !is_board(board) {
        return Err(PlayError::NotABoard);
    }
    Ok(())
}

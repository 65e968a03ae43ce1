// The questions (board/cell.rs and parts of board.rs of the original): what a board shows. Each tests the board value
// (number 2) itself; one for a cell tests its position (3), that for a key of the keypad its key (8). Beside a refusal
// stand zeros and false. Each question is a call of C's: board, row and column come one by one, and questions of one
// shape stay apart.
#![tactic(auto)]

ghost use Rattle.std.specs.Prelude.{◌≡◌, not};
ghost use Rattle.puzzle.specs.Givens.{is_on};
ghost use Rattle.sudoku.specs.Tests.{both};
ghost use Rattle.board.specs.Board.{state_of};
ghost use Rattle.board.specs.Errors.{play_number, number_told};
ghost use Rattle.questions.specs.Questions.{board_number, cell_number, key_number, yes_no, answered, cell_answer, no_cell, cell_question, conflicts_question, accepts_marks_question, players_digit_question, status_question, full_question, consistent_question, can_undo_question, can_redo_question, left_question, keypad_question};

use board::error::PlayError;
use board::value::is_board;
use board::{Board, cell};
use journal::notes::note_at;
use journal::slots::is_given;
use puzzle::answer::accepted;
use puzzle::{Refusal, digit_at, holds_digit};
use sudoku::{cell_of, in_range, on_grid};

// What the question for one cell answers; zeros beside a refusal.
#[repr(C)]
#[derive(Clone, Copy, PartialEq, Eq)]
pub struct CellAnswer {
    pub refusal: Refusal,
    pub digit: u8,
    pub given: bool,
    pub conflicting: bool,
    // the kept note, and whether it is shown
    pub note: u16,
    pub shown: bool,
}

// What a question answered by yes or no answers; false beside a refusal.
#[repr(C)]
#[derive(Clone, Copy, PartialEq, Eq)]
pub struct YesNo {
    pub refusal: Refusal,
    pub holds: bool,
}

// What the keypad answers: digits left for a key; 0 beside a refusal.
#[repr(C)]
#[derive(Clone, Copy, PartialEq, Eq)]
pub struct Left {
    pub refusal: Refusal,
    pub left: u8,
}

// What the keypad answers as a whole: digits left for key 1 first, for key 9 last; zeros beside a refusal.
#[repr(C)]
#[derive(Clone, Copy, PartialEq, Eq)]
pub struct KeypadAnswer {
    pub refusal: Refusal,
    pub left: [u8; 9],
}

// Number 2, which every question asks first.
#[tactic(auto, unfolding(crate::specs::Questions::board_number, sudoku::specs::Tests::first, sudoku::specs::Tests::pick))]
fn board_test(board: Board) -> Result<(), PlayError>
    ensures { number_told result ≡ board_number board }
{
    if !is_board(board) {
        return Err(PlayError::NotABoard);
    }
    Ok(())
}

#[tactic(auto, unfolding(crate::specs::Questions::board_number, crate::specs::Questions::cell_number, sudoku::specs::Tests::first, sudoku::specs::Tests::pick))]
fn cell_test(board: Board, row: u8, column: u8) -> Result<(), PlayError>
    ensures { number_told result ≡ cell_number board row column }
{
    board_test(board)?;
    if !on_grid(row, column) {
        return Err(PlayError::NoSuchCell);
    }
    Ok(())
}

#[tactic(auto, unfolding(crate::specs::Questions::board_number, crate::specs::Questions::key_number, sudoku::specs::Tests::first, sudoku::specs::Tests::pick))]
fn key_test(board: Board, digit: u8) -> Result<(), PlayError>
    ensures { number_told result ≡ key_number board digit }
{
    board_test(board)?;
    if !in_range(digit) {
        return Err(PlayError::DigitOutOfRange);
    }
    Ok(())
}

// The answer to a question of yes or no: no beside a refusal.
#[tactic(auto, unfolding(crate::specs::Questions::yes_no, sudoku::specs::Tests::both))]
fn yes_no(answer: Result<bool, PlayError>) -> YesNo
    ensures { result ≡ answered answer }
{
    match answer {
        Ok(holds) => YesNo {
            refusal: accepted(),
            holds,
        },
        Err(e) => YesNo {
            refusal: Refusal::from(e),
            holds: false,
        },
    }
}

#[tactic(auto, unfolding(crate::specs::Questions::no_cell))]
fn no_cell(why: PlayError) -> CellAnswer
    ensures { result ≡ no_cell (play_number why) }
{
    CellAnswer {
        refusal: Refusal::from(why),
        digit: 0,
        given: false,
        conflicting: false,
        note: 0,
        shown: false,
    }
}

// A note under a digit is kept and not shown.
#[tactic(auto, unfolding(crate::specs::Questions::cell_answer, board::specs::Board::state_of, journal::specs::State::digit_at, journal::specs::State::note_at))]
fn cell_answer(board: Board, cell: usize) -> CellAnswer
    ensures { result ≡ cell_answer (state_of board) cell }
{
    let digit = digit_at(&board.digits, cell);
    CellAnswer {
        refusal: accepted(),
        digit,
        given: is_given(&board.given, cell),
        conflicting: puzzle::conflicts(&board.digits, cell),
        note: note_at(&board.notes, cell),
        shown: digit == 0,
    }
}

// The question for one cell: its digit, whether it is a given,
// whether it conflicts, its kept note and whether that is shown.
#[tactic(auto, using(crate::proofs::Asked::no_zero), unfolding(crate::specs::Questions::cell_question, sudoku::specs::Tests::pick))]
pub fn cell(board: Board, row: u8, column: u8) -> CellAnswer
    ensures { result ≡ cell_question board row column }
{
    match cell_test(board, row, column) {
        Ok(()) => cell_answer(board, cell_of(row, column)),
        Err(e) => no_cell(e),
    }
}

// Whether the cell holds a digit that a peer also holds.
pub fn conflicts(board: Board, row: u8, column: u8) -> YesNo
    ensures { result ≡ conflicts_question board row column }
{
    let test = cell_test(board, row, column);
    yes_no(test.map(|()| puzzle::conflicts(&board.digits, cell_of(row, column))))
}

// Whether marks may be written and struck at the cell: where it holds no digit.
pub fn accepts_marks(board: Board, row: u8, column: u8) -> YesNo
    ensures { result ≡ accepts_marks_question board row column }
{
    let test = cell_test(board, row, column);
    yes_no(test.map(|()| !holds_digit(&board.digits, cell_of(row, column))))
}

// Whether the cell holds a digit that the player put there.
pub fn holds_players_digit(board: Board, row: u8, column: u8) -> YesNo
    ensures { result ≡ players_digit_question board row column }
{
    let test = cell_test(board, row, column);
    let place = cell_of(row, column);
    yes_no(test.map(|()| cell::holds_players_digit(&board.digits, &board.given, place)))
}

// Whether the puzzle is solved.
pub fn status(board: Board) -> YesNo
    ensures { result ≡ status_question board }
{
    yes_no(board_test(board).map(|()| board.solved != 0))
}

// Whether every cell holds a digit.
pub fn is_full(board: Board) -> YesNo
    ensures { result ≡ full_question board }
{
    yes_no(board_test(board).map(|()| puzzle::is_full(&board.digits)))
}

// Whether no cell conflicts.
pub fn is_consistent(board: Board) -> YesNo
    ensures { result ≡ consistent_question board }
{
    yes_no(board_test(board).map(|()| puzzle::is_consistent(&board.digits)))
}

// Whether a move is there to be taken back or made again. On a solved board none is.
fn unless_solved(board: Board, there: bool) -> YesNo
    ensures { result ≡ yes_no (board_number board) (both (not (is_on board.solved)) there) }
{
    yes_no(board_test(board).map(|()| board.solved == 0 && there))
}

// Whether a move stands to be taken back.
#[tactic(auto, unfolding(crate::specs::Questions::can_undo_question))]
pub fn can_undo(board: Board) -> YesNo
    ensures { result ≡ can_undo_question board }
{
    unless_solved(board, board.standing > 0)
}

// Whether an undone move is there to be made again.
#[tactic(auto, unfolding(crate::specs::Questions::can_redo_question))]
pub fn can_redo(board: Board) -> YesNo
    ensures { result ≡ can_redo_question board }
{
    unless_solved(board, board.standing < board.made)
}

// The keypad: digits left for a key, nine less the cells that hold the digit and conflict with no peer.
#[tactic(auto, unfolding(crate::specs::Questions::left_question, sudoku::specs::Tests::pick))]
pub fn digits_left(board: Board, digit: u8) -> Left
    ensures { result ≡ left_question board digit }
{
    match key_test(board, digit) {
        Ok(()) => Left {
            refusal: accepted(),
            left: puzzle::digits_left(&board.digits, digit),
        },
        Err(e) => Left {
            refusal: Refusal::from(e),
            left: 0,
        },
    }
}

// The keypad whole: digits left for each of the keys 1 to 9. One call, since the board is handed over and tested once.
#[tactic(auto, using(crate::proofs::Asked::keys_asked, crate::proofs::Asked::no_zero), unfolding(crate::specs::Questions::keypad_question, sudoku::specs::Tests::pick))]
pub fn keypad(board: Board) -> KeypadAnswer
    ensures { result ≡ keypad_question board }
{
    match board_test(board) {
        Ok(()) => KeypadAnswer {
            refusal: accepted(),
            left: puzzle::keypad(&board.digits),
        },
        Err(e) => KeypadAnswer {
            refusal: Refusal::from(e),
            left: [0; 9],
        },
    }
}

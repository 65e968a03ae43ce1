// Why a move is refused: 3 to 11, tested in their order, and the tests of the whole call. Row and column go to a test
// as the call has them: a position has no type of its own, since any two bytes are one.
#![tactic(auto, unfolding(sudoku::specs::Tests::first, sudoku::specs::Tests::pick, sudoku::specs::Tests::both, board::specs::Board::state_of, journal::specs::State::digit_at, journal::specs::State::note_at, journal::specs::State::holds_players_digit, journal::specs::State::accepts_marks, crate::specs::Play::move_tests, crate::specs::Play::play_tests))]

ghost use Rattle.std.specs.Prelude.{◌≡◌, not, [], ◌∷◌};
ghost use Rattle.puzzle.specs.Givens.{is_on};
ghost use Rattle.sudoku.specs.Tests.{◌⇒◌, first};
ghost use Rattle.sudoku.specs.Grid.{on_grid};
ghost use Rattle.journal.specs.declared.Move.TheVariants.{Place, Erase, WriteMark, StrikeMark};
ghost use Rattle.board.specs.Board.{state_of};
ghost use Rattle.board.specs.Errors.{number_told};
ghost use Rattle.play.specs.declared.Play.TheVariants.{Pencil};
ghost use Rattle.play.specs.Play.{move_tests, play_tests, call_tests};

use crate::Play;
use board::Board;
use board::cell::holds_players_digit;
use board::error::PlayError;
use board::value::lent;
use journal::notes::note_at;
use journal::slots::is_given;
use journal::{JOURNAL_BYTES, MAX_MOVES, Move};
use note::contains;
use puzzle::{digit_at, holds_digit};
use sudoku::{cell_of, in_range, on_grid};

// 3 and 4, which every move tests first.
fn cell_test(board: &Board, row: u8, column: u8) -> Result<(), PlayError>
    ensures { number_told result ≡ first ((not (on_grid row column) ⇒ 3) ∷ (is_on board.now.solved ⇒ 4) ∷ []) }
{
    if !on_grid(row, column) {
        return Err(PlayError::NoSuchCell);
    }
    if board.solved != 0 {
        return Err(PlayError::Solved);
    }
    Ok(())
}

// 3 4 5 8 9.
fn place_test(board: &Board, row: u8, column: u8, digit: u8) -> Result<(), PlayError>
    ensures { number_told result ≡ first (move_tests (state_of board.now) (Place row column digit)) }
{
    cell_test(board, row, column)?;
    let cell = cell_of(row, column);
    if is_given(&board.given, cell) {
        return Err(PlayError::GivenCell);
    }
    if !in_range(digit) {
        return Err(PlayError::DigitOutOfRange);
    }
    if digit_at(&board.digits, cell) == digit {
        return Err(PlayError::DigitAlreadyStands);
    }
    Ok(())
}

// 3 4 6.
fn erase_test(board: &Board, row: u8, column: u8) -> Result<(), PlayError>
    ensures { number_told result ≡ first (move_tests (state_of board.now) (Erase row column)) }
{
    cell_test(board, row, column)?;
    if !holds_players_digit(&board.digits, &board.given, cell_of(row, column)) {
        return Err(PlayError::NoPlayersDigit);
    }
    Ok(())
}

// 3 4 7 8: asked of the pencil, and before 10 of a mark that a record writes.
fn pencil_test(board: &Board, row: u8, column: u8, mark: u8) -> Result<(), PlayError>
    ensures { number_told result ≡ first (play_tests (state_of board.now) (Pencil row column mark)) }
{
    cell_test(board, row, column)?;
    if holds_digit(&board.digits, cell_of(row, column)) {
        return Err(PlayError::MarksNotAccepted);
    }
    if !in_range(mark) {
        return Err(PlayError::DigitOutOfRange);
    }
    Ok(())
}

// 3 4 7 8 10.
fn write_mark_test(board: &Board, row: u8, column: u8, mark: u8) -> Result<(), PlayError>
    ensures { number_told result ≡ first (move_tests (state_of board.now) (WriteMark row column mark)) }
{
    pencil_test(board, row, column, mark)?;
    if contains(note_at(&board.notes, cell_of(row, column)), mark) {
        return Err(PlayError::MarkAlreadyWritten);
    }
    Ok(())
}

// 3 4 7 11.
fn strike_mark_test(board: &Board, row: u8, column: u8, mark: u8) -> Result<(), PlayError>
    ensures { number_told result ≡ first (move_tests (state_of board.now) (StrikeMark row column mark)) }
{
    cell_test(board, row, column)?;
    let cell = cell_of(row, column);
    if holds_digit(&board.digits, cell) {
        return Err(PlayError::MarksNotAccepted);
    }
    if !contains(note_at(&board.notes, cell), mark) {
        return Err(PlayError::MarkNotThere);
    }
    Ok(())
}

// Why a record's move is refused: 3 to 11.
pub fn move_test(board: &Board, m: Move) -> Result<(), PlayError>
    ensures { number_told result ≡ first (move_tests (state_of board.now) m) }
{
    match m {
        Move::Place { row, column, digit } => place_test(board, row, column, digit),
        Move::Erase { row, column } => erase_test(board, row, column),
        Move::WriteMark { row, column, digit } => write_mark_test(board, row, column, digit),
        Move::StrikeMark { row, column, digit } => strike_mark_test(board, row, column, digit),
    }
}

// Why a call is refused: 3 to 9.
fn play_test(board: &Board, p: Play) -> Result<(), PlayError>
    ensures { number_told result ≡ first (play_tests (state_of board.now) p) }
{
    match p {
        Play::Place { row, column, digit } => place_test(board, row, column, digit),
        Play::Erase { row, column } => erase_test(board, row, column),
        Play::Pencil { row, column, digit } => pencil_test(board, row, column, digit),
    }
}

// A call that makes a move: 1 and 2, its own, 15. Number 2 reads the whole board, and so the one that came; the call is
// asked of its copy in the answer. A board by value that is lent would be copied once more.
pub(crate) fn call_test(
    board: Board,
    copy: &Board,
    journal: &[u8],
    p: Play,
) -> Result<(), PlayError>
    requires { copy.now ≡ board }
    ensures { number_told result ≡ first (call_tests board journal.now p) }
{
    lent(board, journal.len() == JOURNAL_BYTES)?;
    play_test(copy, p)?;
    if board.standing == MAX_MOVES {
        return Err(PlayError::JournalFull);
    }
    Ok(())
}

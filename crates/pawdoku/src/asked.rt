// The questions, and the keypad's.
ghost use Rattle.std.specs.Prelude.{◌≡◌};
ghost use Rattle.questions.specs.Questions.{cell_question, conflicts_question, accepts_marks_question, players_digit_question, status_question, full_question, consistent_question, can_undo_question, can_redo_question, left_question, keypad_question};

use board::Board;
use questions::{CellAnswer, KeypadAnswer, Left, YesNo};

pub fn pawdoku_cell(board: Board, row: u8, column: u8) -> CellAnswer
    ensures { result ≡ cell_question board row column }
{
    questions::cell(board, row, column)
}

pub fn pawdoku_conflicts(board: Board, row: u8, column: u8) -> YesNo
    ensures { result ≡ conflicts_question board row column }
{
    questions::conflicts(board, row, column)
}

pub fn pawdoku_accepts_marks(board: Board, row: u8, column: u8) -> YesNo
    ensures { result ≡ accepts_marks_question board row column }
{
    questions::accepts_marks(board, row, column)
}

pub fn pawdoku_holds_players_digit(board: Board, row: u8, column: u8) -> YesNo
    ensures { result ≡ players_digit_question board row column }
{
    questions::holds_players_digit(board, row, column)
}

pub fn pawdoku_is_solved(board: Board) -> YesNo
    ensures { result ≡ status_question board }
{
    questions::status(board)
}

pub fn pawdoku_is_full(board: Board) -> YesNo
    ensures { result ≡ full_question board }
{
    questions::is_full(board)
}

pub fn pawdoku_is_consistent(board: Board) -> YesNo
    ensures { result ≡ consistent_question board }
{
    questions::is_consistent(board)
}

pub fn pawdoku_can_undo(board: Board) -> YesNo
    ensures { result ≡ can_undo_question board }
{
    questions::can_undo(board)
}

pub fn pawdoku_can_redo(board: Board) -> YesNo
    ensures { result ≡ can_redo_question board }
{
    questions::can_redo(board)
}

pub fn pawdoku_digits_left(board: Board, digit: u8) -> Left
    ensures { result ≡ left_question board digit }
{
    questions::digits_left(board, digit)
}

pub fn pawdoku_keypad(board: Board) -> KeypadAnswer
    ensures { result ≡ keypad_question board }
{
    questions::keypad(board)
}

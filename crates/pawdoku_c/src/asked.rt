// The questions, and the keypad's.
ghost use Rattle.std.specs.Prelude.{◌≡◌};
ghost use Rattle.questions.specs.Questions.{cell_question, conflicts_question, accepts_marks_question, players_digit_question, status_question, full_question, consistent_question, can_undo_question, can_redo_question, left_question, keypad_question};

use board::Board;
use questions::{CellAnswer, KeypadAnswer, Left, YesNo};

#[unsafe(no_mangle)]
pub extern "C" fn pawdoku_cell(board: Board, row: u8, column: u8) -> CellAnswer
    ensures { result ≡ cell_question board row column }
{
    pawdoku::asked::pawdoku_cell(board, row, column)
}

#[unsafe(no_mangle)]
pub extern "C" fn pawdoku_conflicts(board: Board, row: u8, column: u8) -> YesNo
    ensures { result ≡ conflicts_question board row column }
{
    pawdoku::asked::pawdoku_conflicts(board, row, column)
}

#[unsafe(no_mangle)]
pub extern "C" fn pawdoku_accepts_marks(board: Board, row: u8, column: u8) -> YesNo
    ensures { result ≡ accepts_marks_question board row column }
{
    pawdoku::asked::pawdoku_accepts_marks(board, row, column)
}

#[unsafe(no_mangle)]
pub extern "C" fn pawdoku_holds_players_digit(board: Board, row: u8, column: u8) -> YesNo
    ensures { result ≡ players_digit_question board row column }
{
    pawdoku::asked::pawdoku_holds_players_digit(board, row, column)
}

#[unsafe(no_mangle)]
pub extern "C" fn pawdoku_is_solved(board: Board) -> YesNo
    ensures { result ≡ status_question board }
{
    pawdoku::asked::pawdoku_is_solved(board)
}

#[unsafe(no_mangle)]
pub extern "C" fn pawdoku_is_full(board: Board) -> YesNo
    ensures { result ≡ full_question board }
{
    pawdoku::asked::pawdoku_is_full(board)
}

#[unsafe(no_mangle)]
pub extern "C" fn pawdoku_is_consistent(board: Board) -> YesNo
    ensures { result ≡ consistent_question board }
{
    pawdoku::asked::pawdoku_is_consistent(board)
}

#[unsafe(no_mangle)]
pub extern "C" fn pawdoku_can_undo(board: Board) -> YesNo
    ensures { result ≡ can_undo_question board }
{
    pawdoku::asked::pawdoku_can_undo(board)
}

#[unsafe(no_mangle)]
pub extern "C" fn pawdoku_can_redo(board: Board) -> YesNo
    ensures { result ≡ can_redo_question board }
{
    pawdoku::asked::pawdoku_can_redo(board)
}

#[unsafe(no_mangle)]
pub extern "C" fn pawdoku_digits_left(board: Board, digit: u8) -> Left
    ensures { result ≡ left_question board digit }
{
    pawdoku::asked::pawdoku_digits_left(board, digit)
}

#[unsafe(no_mangle)]
pub extern "C" fn pawdoku_keypad(board: Board) -> KeypadAnswer
    ensures { result ≡ keypad_question board }
{
    pawdoku::asked::pawdoku_keypad(board)
}

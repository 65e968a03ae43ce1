// Puzzle lines, as setters mail them: 81 characters, row by row, 1 to 9 for a given, a full stop or 0 for a blank,
// and at most one line feed behind them. A line is read into givens as opening takes them, and a board's givens are
// written as a line. Neither is in the original.
#![tactic(auto)]

ghost use Rattle.std.specs.Prelude.{◌≡◌, true, ◌+◌, ◌≤◌, length, IfOk, OnErr};
ghost use Rattle.sudoku.specs.Tests.{every};
ghost use Rattle.sudoku.specs.Grid.{at as entry_at};
ghost use Rattle.puzzle.specs.Refusals.{told};
ghost use Rattle.puzzle.specs.Givens.{triple_bytes};
ghost use Rattle.journal.specs.Bytes.{over};
ghost use Rattle.board.specs.Board.{digit_value};
ghost use Rattle.lines.specs.Errors.{line_error_refusal};
ghost use Rattle.lines.specs.Lines.{line_bytes, givens_room, is_line, line_refusal, values_of, line_givens, digits_bytes, digits_givens};
ghost use Rattle.lines.specs.Lines.{read_refusal, read_line_of, character_at, line_of, write_line_refusal, write_line_of};
ghost use Rattle.lines.specs.Code.Triples.{given_bytes};

use board::Board;
use board::error::PlayError;
use board::value::is_board;
use error::LineError;
use journal::slots::is_given;
use puzzle::digit_at;
use puzzle::text::value_of;
use record::Written;
use sudoku::{CELLS, column_of, row_of};

pub mod error;

// Bytes of a line that is written.
pub const LINE_BYTES: usize = CELLS;
// Bytes of a given as opening takes it, and the room for a line's givens, however few they are.
pub const GIVEN_BYTES: usize = 3;

pub const GIVENS_ROOM: usize = GIVEN_BYTES * CELLS;

// Givens as opening takes them: three bytes each, so many bytes in all.
#[derive(Clone, Copy)]
pub struct Givens {
    pub bytes: [u8; GIVENS_ROOM],
    pub length: usize,
}

// Whether a text has the length of a line: 81 characters, or a line feed behind them.
#[tactic(auto, unfolding(crate::specs::Lines::is_line, sudoku::specs::Tests::either, sudoku::specs::Tests::both))]
fn is_line(text: &[u8]) -> bool
    ensures { result ≡ is_line text.now }
{
    text.len() == LINE_BYTES || text.len() == LINE_BYTES + 1 && text[LINE_BYTES] == b'\n'
}

// The digits of a line, 0 for a blank; a solution may be sent as a line too. Refused by 36 37.
pub fn line_digits(line: &[u8]) -> Result<[u8; CELLS], LineError>
    ensures refusal { told line_error_refusal result ≡ line_refusal line.now }
    ensures digits { IfOk result (λ digits. digits ≡ values_of line.now) }
{
    if !is_line(line) {
        return Err(LineError::NotALine);
    }
    let mut digits = [0u8; CELLS];
    // by index: a wrong character is named by its place, and no heap is there to collect on
    for i in 0..CELLS {
        let Some(digit) = value_of(line[i]) else {
            return Err(LineError::OtherSort { character: i + 1 });
        };
        digits[i] = digit;
    }
    Ok(digits)
}

// A cell's digit as a given at an offset, nothing where it holds none; answers where the next one goes.
#[tactic(auto, unfolding(crate::specs::Code::Triples::given_bytes, puzzle::specs::Puzzle::holds_digit, sudoku::specs::Tests::pick, sudoku::specs::Grid::row_of))]
fn lay_given(digits: &[u8; 81], cell: usize, output: &mut [u8], at: usize) -> usize
    requires { (cell ≤ 81) × (at + length (given_bytes digits.now cell) ≤ length output.old) }
    ensures { (result ≡ at + length (given_bytes digits.now cell)) × (output.new ≡ over output.old at (given_bytes digits.now cell)) }
{
    let digit = digit_at(digits, cell);
    if digit == 0 {
        return at;
    }
    let end = at + GIVEN_BYTES;
    // row and column are at most 9, since the cell is at most 81: `try_from` would have a case that cannot come
    output[at..end].copy_from_slice(&[row_of(cell) as u8, column_of(cell) as u8, digit]);
    end
}

// The digits of 81 cells as givens, in the order of their cells. Crate record walks the cells so too, over items.
fn lay_givens(digits: &[u8; 81], output: &mut [u8]) -> usize
    requires { givens_room ≤ length output.old }
    ensures { (result ≡ length (digits_bytes digits.now)) × (output.new ≡ over output.old 0 (digits_bytes digits.now)) }
{
    let mut at = 0;
    for cell in 1..=CELLS {
        at = lay_given(digits, cell, output, at);
    }
    at
}

// The digits of a puzzle as givens, for those who have read one otherwise; they are laid into room that is lent.
pub fn givens_in<'a>(digits: &[u8; CELLS], room: &'a mut [u8; GIVENS_ROOM]) -> &'a [u8]
    ensures { result.now ≡ digits_bytes digits.now }
{
    let length = lay_givens(digits, room);
    &room[..length]
}

// The same for those who lend no room: zeros stand behind the givens.
#[tactic(auto, unfolding(crate::specs::Lines::digits_givens))]
pub fn givens_of(digits: &[u8; 81]) -> Givens
    ensures { result ≡ digits_givens digits.now }
{
    let mut bytes = [0u8; GIVENS_ROOM];
    let length = lay_givens(digits, &mut bytes);
    Givens { bytes, length }
}

// Reads a line into givens; answers how many bytes they have.
#[tactic(auto, unfolding(crate::specs::Lines::read_refusal, puzzle::specs::Refusals::or_else, puzzle::specs::Refusals::refused_if, puzzle::specs::Refusals::is_accepted, sudoku::specs::Tests::pick))]
fn read(line: &[u8], output: &mut [u8]) -> Result<usize, LineError>
    ensures refusal { told line_error_refusal result ≡ read_refusal line.now output.old }
    ensures laid { IfOk result (λ n. (n ≡ length (triple_bytes (line_givens line.now))) × (output.new ≡ over output.old 0 (triple_bytes (line_givens line.now)))) }
    ensures kept { OnErr result (output.new ≡ output.old) }
{
    if output.len() < GIVENS_ROOM {
        return Err(LineError::OutputTooShort);
    }
    let digits = line_digits(line)?;
    Ok(lay_givens(&digits, output))
}

// Reads a line into givens as opening takes them. Refused by 34 36 37; the room has to do for 81 givens.
pub fn read_line(line: &[u8], output: &mut [u8]) -> Written
    ensures { (result ≡ (read_line_of line.now output.old).answer) × (output.new ≡ (read_line_of line.now output.old).output) }
{
    Written::told(read(line, output))
}

// The character of a cell: its digit where it is a given, else a full stop, whatever the player has put there.
#[tactic(auto, unfolding(crate::specs::Lines::character_at, sudoku::specs::Tests::pick))]
fn character(board: &Board, cell: usize) -> u8
    requires { entry_at board.now.digits cell ≤ 9 }
    ensures { result ≡ character_at board.now.given board.now.digits cell }
{
    if is_given(&board.given, cell) {
        b'0' + digit_at(&board.digits, cell)
    } else {
        b'.'
    }
}

// The characters of the 81 cells. By index: a cell is a number, and the output is longer than a line may be.
fn lay_line(board: &Board, output: &mut [u8])
    requires { (every (digit_value board.now.digits board.now.given) 81 1 ≡ true) × (line_bytes ≤ length output.old) }
    ensures { output.new ≡ over output.old 0 (line_of board.now) }
{
    for index in 0..CELLS {
        output[index] = character(board, index + 1);
    }
}

// Writes a board's givens as a line; answers how many bytes it has.
#[tactic(auto, unfolding(crate::specs::Lines::write_line_refusal, puzzle::specs::Refusals::or_else, puzzle::specs::Refusals::refused_if, puzzle::specs::Refusals::is_accepted, sudoku::specs::Tests::pick))]
fn written(board: &Board, output: &mut [u8]) -> Result<usize, LineError>
    ensures refusal { told line_error_refusal result ≡ write_line_refusal board.now output.old }
    ensures laid { IfOk result (λ n. (n ≡ length (line_of board.now)) × (output.new ≡ over output.old 0 (line_of board.now))) }
    ensures kept { OnErr result (output.new ≡ output.old) }
{
    if !is_board(*board) {
        return Err(PlayError::NotABoard.into());
    }
    if output.len() < LINE_BYTES {
        return Err(LineError::OutputTooShort);
    }
    lay_line(board, output);
    Ok(LINE_BYTES)
}

// Writes a board's givens as a line, with full stops and without a line feed. Refused by 2 34.
pub fn write_line(board: Board, output: &mut [u8]) -> Written
    ensures { (result ≡ (write_line_of board output.old).answer) × (output.new ≡ (write_line_of board output.old).output) }
{
    Written::told(written(&board, output))
}

// A stored session and a stored reopening, replayed. What is stored, what is played and what is counted are three: each
// function reads the first, plays on the second and counts in the third.
use crate::block::Block;
use crate::tally::{Tally, count};
use board::Board;
use calls::CALL_BYTES;
use journal::{CHECK_BYTES, CHECK_MEMORY, JOURNAL_BYTES, MAX_CHECKS, MAX_MOVES, SLOT_BYTES};
use lines::{GIVEN_BYTES, GIVENS_ROOM, LINE_BYTES};
use pawdoku::asked::{
    pawdoku_can_redo, pawdoku_can_undo, pawdoku_cell, pawdoku_digits_left, pawdoku_is_consistent,
    pawdoku_is_full, pawdoku_is_solved, pawdoku_keypad,
};
use pawdoku::grid::pawdoku_cell_of;
use pawdoku::line::{pawdoku_read_line, pawdoku_write_line};
use pawdoku::list::pawdoku_play;
use pawdoku::saved::{pawdoku_open, pawdoku_reopen, pawdoku_write};
use pawdoku::slots::pawdoku_reading;
use puzzle::digit_at;
use record::RECORD_BYTES;
use sudoku::{CELLS, SIDE};

// Room for the answers to the calls of a session: no stored one has as many.
const ANSWERS: usize = 16384;

// A board and the memory that is lent to it. Not `files::Memory`: crate files would bring the console's printing along.
#[derive(Drop)]
struct Game {
    board: Board,
    journal: [u8; JOURNAL_BYTES],
    checks: [u8; CHECK_MEMORY],
}

// The first bytes of some; none where there are not as many.
fn front(bytes: &[u8], length: usize) -> &[u8] {
    bytes.get(..length).unwrap_or(&[])
}

// The number of calls, the calls, and their answers.
fn calls(block: &mut Block, game: &mut Game, tally: &mut Tally) {
    let n = block.number();
    let list = block.bytes(CALL_BYTES * n);
    let stored = block.bytes(CALL_BYTES * n);
    let mut answers = [0u8; ANSWERS];
    let answer = pawdoku_play(
        game.board,
        &mut game.journal,
        &mut game.checks,
        list,
        &mut answers,
    );
    game.board = answer.board;
    tally.expect_all(stored, front(&answers, CALL_BYTES * n));
    count(&mut tally.calls, n);
}

// solved, full, consistent, can undo, can redo: one bit each.
fn questions(flags: u8, board: Board, tally: &mut Tally) {
    tally.expect_bit(flags, 1, pawdoku_is_solved(board).holds);
    tally.expect_bit(flags, 2, pawdoku_is_full(board).holds);
    tally.expect_bit(flags, 4, pawdoku_is_consistent(board).holds);
    tally.expect_bit(flags, 8, pawdoku_can_undo(board).holds);
    tally.expect_bit(flags, 16, pawdoku_can_redo(board).holds);
}

// Digits, kept notes, flags, and the three counts.
fn state(block: &mut Block, board: Board, tally: &mut Tally) {
    tally.expect_all(&board.digits, block.bytes(CELLS));
    tally.expect_all(&board.notes, &block.notes());
    questions(block.byte(), board, tally);
    tally.expect(board.made == block.number());
    tally.expect(board.standing == block.number());
    tally.expect(board.checks == block.number());
}

// The question for one cell: bits for conflicting, given and whether its note is shown. The digit is compared with the
// board's, and so is the flag of a given.
fn cell(flags: u8, board: Board, row: u8, column: u8, tally: &mut Tally) {
    let answer = pawdoku_cell(board, row, column);
    let cell = pawdoku_cell_of(row, column);
    tally.expect_bit(flags, 1, answer.conflicting);
    tally.expect_bit(flags, 2, answer.given);
    tally.expect_bit(flags, 4, answer.shown);
    tally.expect(answer.digit == digit_at(&board.digits, cell));
    tally.expect_bit(digit_at(&board.given, cell), 1, answer.given);
}

fn row_of_cells(block: &mut Block, board: Board, row: u8, tally: &mut Tally) {
    for column in 1..=SIDE {
        cell(block.byte(), board, row, column, tally);
    }
}

// The question for each cell, one byte each.
fn cells(block: &mut Block, board: Board, tally: &mut Tally) {
    for row in 1..=SIDE {
        row_of_cells(block, board, row, tally);
    }
}

// Digits left for each key, one byte each: asked for the whole keypad, and for each key by itself.
fn keys(block: &mut Block, board: Board, tally: &mut Tally) {
    let keypad = pawdoku_keypad(board).left;
    for (key, left) in (1..=SIDE).zip(keypad.iter()) {
        let stored = block.byte();
        tally.expect(*left == stored);
        tally.expect(pawdoku_digits_left(board, key).left == stored);
    }
}

// The board's line, written and read back: the givens that the block was opened with.
fn line(givens: &[u8], board: Board, tally: &mut Tally) {
    let mut text = [0u8; LINE_BYTES];
    let mut read = [0u8; GIVENS_ROOM];
    let written = pawdoku_write_line(board, &mut text);
    let back = pawdoku_read_line(&text, &mut read);
    tally.expect(written.refusal.outcome().is_ok());
    tally.expect(back.refusal.outcome().is_ok());
    tally.expect_all(givens, front(&read, back.length));
}

// Whether a reopened board is the one that was played: its arrays, entry by entry, its status and its counts.
fn same_board(played: Board, reopened: Board, tally: &mut Tally) {
    tally.expect_all(&played.digits, &reopened.digits);
    tally.expect_all(&played.given, &reopened.given);
    tally.expect_all(&played.notes, &reopened.notes);
    tally.expect_all(&played.solution, &reopened.solution);
    tally.expect(played.solved == reopened.solved);
    tally.expect(played.made == reopened.made);
    tally.expect(played.standing == reopened.standing);
    tally.expect(played.checks == reopened.checks);
}

// The record as it stands in the block, reopened: the same board, the same slots and the same checks.
fn reopened(record: &[u8], game: &Game, tally: &mut Tally) {
    let mut journal = [0u8; JOURNAL_BYTES];
    let mut checks = [0u8; CHECK_MEMORY];
    let answer = pawdoku_reopen(record, &game.board.solution, &mut journal, &mut checks);
    tally.expect(answer.refusal.outcome().is_ok());
    same_board(game.board, answer.board, tally);
    let moves = SLOT_BYTES * game.board.made.min(MAX_MOVES);
    tally.expect_all(front(&game.journal, moves), front(&journal, moves));
    let asked = CHECK_BYTES * game.board.checks.min(MAX_CHECKS);
    tally.expect_all(front(&game.checks, asked), front(&checks, asked));
}

// The record's length and the record: written by the board, and reopened.
fn record(block: &mut Block, game: &Game, tally: &mut Tally) {
    let length = block.number();
    let stored = block.bytes(length);
    let mut output = [0u8; RECORD_BYTES];
    let written = pawdoku_write(game.board, &game.journal, &game.checks, &mut output);
    tally.expect(written.refusal.outcome().is_ok());
    tally.expect_all(stored, front(&output, written.length));
    reopened(stored, game, tally);
}

// A reading: k, kind, row, column, digit, undone, the digits and the notes.
fn reading(block: &mut Block, game: &Game, tally: &mut Tally) {
    let answer = pawdoku_reading(game.board, &game.journal, block.number());
    tally.expect(answer.kind == block.byte());
    tally.expect(answer.row == block.byte());
    tally.expect(answer.column == block.byte());
    tally.expect(answer.digit == block.byte());
    tally.expect_bit(block.byte(), 1, answer.undone);
    tally.expect_all(&answer.digits, block.bytes(CELLS));
    tally.expect_all(&answer.notes, &block.notes());
    count(&mut tally.readings, 1);
}

// The number of readings, and the readings.
fn readings(block: &mut Block, game: &Game, tally: &mut Tally) {
    for _ in 0..block.byte() {
        reading(block, game, tally);
    }
}

// The givens of a block, three bytes each behind their number.
fn givens<'a>(block: &mut Block<'a>) -> &'a [u8] {
    let n = usize::from(block.byte());
    block.present(GIVEN_BYTES * n)
}

// A whole session. Where opening is refused, nothing more is stored.
pub(crate) fn session(block: &mut Block, tally: &mut Tally) {
    count(&mut tally.sessions, 1);
    let mut journal = [0u8; JOURNAL_BYTES];
    let mut checks = [0u8; CHECK_MEMORY];
    let solution = block.bytes(CELLS);
    let givens = givens(block);
    let opened = pawdoku_open(givens, solution, &mut journal, &mut checks);
    tally.expect_refusal(opened.refusal, block.refusal());
    let mut game = Game {
        board: opened.board,
        journal,
        checks,
    };
    if opened.refusal.outcome().is_err() {
        return;
    }
    calls(block, &mut game, tally);
    state(block, game.board, tally);
    cells(block, game.board, tally);
    keys(block, game.board, tally);
    line(givens, game.board, tally);
    record(block, &game, tally);
    readings(block, &game, tally);
}

// A record and the answer to reopening it: solution, answer, record.
pub(crate) fn reopening(block: &mut Block, tally: &mut Tally) {
    count(&mut tally.reopenings, 1);
    let mut journal = [0u8; JOURNAL_BYTES];
    let mut checks = [0u8; CHECK_MEMORY];
    let solution = block.bytes(CELLS);
    let stored = block.refusal();
    let length = block.number();
    let record = block.bytes(length);
    let answer = pawdoku_reopen(record, solution, &mut journal, &mut checks);
    tally.expect_refusal(answer.refusal, stored);
}

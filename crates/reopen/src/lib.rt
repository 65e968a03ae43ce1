// Reopening a record: the givens opened, all moves performed (28,
// 29), the undone ones taken back (30), then the checks (31 to 33).
#![tactic(auto)]

ghost use Rattle.std.specs.Prelude.{◌≡◌, not, map, ◌-◌, ◌*◌, ◌≤◌, eqb, length, IfOk};
ghost use Rattle.sudoku.specs.Tests.{both};
ghost use Rattle.puzzle.specs.Givens.{is_on};
ghost use Rattle.puzzle.specs.Refusals.{told};
ghost use Rattle.journal.specs.Limits.{max_moves, max_checks, check_item_bytes, journal_bytes, check_memory};
ghost use Rattle.journal.specs.Bytes.{over};
ghost use Rattle.journal.specs.StoredChecks.{judged, stored_all};
ghost use Rattle.board.specs.Board.{state_of};
ghost use Rattle.board.specs.Errors.{number_told};
ghost use Rattle.board.specs.Open.{no_moves, no_checks, Gives};
ghost use Rattle.record.specs.Errors.{reopen_refusal};
ghost use Rattle.record.specs.Reopen.{replay as replay_of, take_back_all, to_play, check_refusal, checks_refusal, reopen_of};
ghost use Rattle.reopen.specs.Code.Reopening.{moves_at, asks_at, next_refusal, asked_number, settled_by, reopened_of, Reopens};

use board::error::PlayError;
use board::open::{lent_lengths, wrong_length, zero_board};
use board::{Answer, Board};
use journal::checks::{is_right, store_check};
use journal::slots::is_given;
use journal::{Asked, Move};
use play::moves::make;
use play::tests::move_test;
use puzzle::Layout;
use puzzle::answer::accepted;
use puzzle::given_bytes::GivenBytes;
use puzzle::vouch::rows_of;
use record::error::ReopenError;
use record::items::{asked_at, move_at};
use record::scan::read_record;
use record::write::{count_givens, move_length};
use record::{CHECK_ITEM, GIVEN_ITEM, Scanned};
use sudoku::{CELLS, cell_of, in_range, on_grid};
use undo::take_back;

// Why move `index` is refused: 28 before 29.
#[tactic(auto, unfolding(crate::specs::Code::Reopening::next_refusal, board::specs::Board::state_of, sudoku::specs::Tests::pick))]
fn next_test(board: &Board, index: usize, m: Move) -> Result<(), ReopenError>
    ensures { told reopen_refusal result ≡ next_refusal (state_of board.now) index m }
{
    if board.solved != 0 {
        return Err(ReopenError::MoveAfterSolved { index });
    }
    move_test(board, m).map_err(|why| ReopenError::MoveRefused { index, why })
}

// All moves performed in order, the first of which stands at `start`; their items have two lengths, so each says where
// the next one starts. Offsets count from the record's first byte, as its definitions do.
fn replay(
    bytes: &[u8],
    start: usize,
    count: usize,
    board: Board,
    journal: &mut [u8],
) -> Result<Board, ReopenError>
    requires { (start ≤ length bytes.now) × (count ≤ max_moves) × (board.standing ≡ 0) × (length journal.old ≡ journal_bytes) }
    ensures refusal { told reopen_refusal result ≡ (replay_of board journal.old 1 (moves_at bytes.now start count)).answer.refusal }
    ensures played { IfOk result (λ b. (b ≡ (replay_of board journal.old 1 (moves_at bytes.now start count)).answer.board) × (journal.new ≡ (replay_of board journal.old 1 (moves_at bytes.now start count)).journal)) }
{
    let mut played = board;
    let mut at = start;
    for k in 1..=count {
        let m = move_at(bytes, at);
        next_test(&played, k, m)?;
        make(&mut played, journal, m);
        at += move_length(m);
    }
    Ok(played)
}

// Taking back n is one undo and then taking back n less one. Board and journal are lent, so that a step keeps
// nothing and the compiler makes a loop of it, which tests/c/stack.c holds; a slice or a struct handed on by value
// would lie on the stack once for each step. No undo of a reopened record is refused, and its number is not asked.
fn take_back_all(n: usize, board: &mut Board, journal: &&[u8])
    ensures { board.new ≡ take_back_all n board.old journal.now.now }
{
    if n == 0 {
        return;
    }
    take_back(board, journal);
    take_back_all(n - 1, board, journal);
}

// How many cells were to play.
#[tactic(auto, using(crate::proofs::Checking::cells_to_play))]
fn to_play(board: &Board) -> usize
    ensures { result ≡ to_play board.now }
{
    CELLS - count_givens(&board.given)
}

// 3, 5 or 8 of a check.
#[tactic(auto, unfolding(crate::specs::Code::Reopening::asked_number, sudoku::specs::Tests::first, sudoku::specs::Tests::pick))]
fn asked_test(given: &[u8; 81], asked: Asked) -> Result<(), PlayError>
    ensures { number_told result ≡ asked_number given.now asked }
{
    if !on_grid(asked.row, asked.column) {
        return Err(PlayError::NoSuchCell);
    }
    if is_given(given, cell_of(asked.row, asked.column)) {
        return Err(PlayError::GivenCell);
    }
    if !in_range(asked.digit) {
        return Err(PlayError::DigitOutOfRange);
    }
    Ok(())
}

// 31, 32 and 33 of check `index`.
#[tactic(auto, unfolding(record::specs::Reopen::check_refusal, crate::specs::Code::Reopening::asked_number, puzzle::specs::Refusals::or_else, puzzle::specs::Refusals::refused_if, puzzle::specs::Refusals::is_accepted, sudoku::specs::Tests::both, sudoku::specs::Tests::pick))]
fn check_test(board: &Board, cells: usize, index: usize, asked: Asked) -> Result<(), ReopenError>
    ensures { told reopen_refusal result ≡ check_refusal board.now cells index asked }
{
    asked_test(&board.given, asked).map_err(|why| ReopenError::CheckRefused { index, why })?;
    if asked.standing == 0 {
        return Err(ReopenError::CheckAfterNoMove { index });
    }
    let right = is_right(
        &board.solution,
        cell_of(asked.row, asked.column),
        asked.digit,
    );
    if right && cells == 1 {
        return Err(ReopenError::CheckSolved { index });
    }
    Ok(())
}

// The checks in order, the first of which stands at `start`, tested and stored with their verdicts.
// How many there are is what the record counts, and not the length of its bytes.
fn read_checks(
    bytes: &[u8],
    start: usize,
    count: usize,
    board: &Board,
    checks: &mut [u8],
) -> Result<(), ReopenError>
    requires { (start ≤ length bytes.now) × (count ≤ max_checks) × (length checks.old ≡ check_memory) }
    ensures refusal { told reopen_refusal result ≡ checks_refusal board.now (to_play board.now) 1 (asks_at bytes.now start count) }
    ensures stored { IfOk result (λ _. checks.new ≡ over checks.old 0 (stored_all (map (judged board.now.solution) (asks_at bytes.now start count)))) }
{
    let cells = to_play(board);
    for k in 1..=count {
        let asked = asked_at(bytes, start + CHECK_ITEM * (k - 1));
        check_test(board, cells, k, asked)?;
        store_check(checks, k - 1, &board.solution, asked);
    }
    Ok(())
}

// Whether 30 applies: a solved board with undone moves.
#[tactic(auto, unfolding(puzzle::specs::Givens::is_on, sudoku::specs::Tests::both))]
fn is_undone_solved(solved: u8, undone: usize) -> bool
    ensures { result ≡ both (is_on solved) (not (eqb undone 0)) }
{
    solved != 0 && undone != 0
}

// 30, the undone moves taken back, then the checks, which stand at the end of the bytes.
fn settle(
    bytes: &[u8],
    s: Scanned,
    board: Board,
    journal: &[u8],
    checks: &mut [u8],
) -> Result<Board, ReopenError>
    requires { (s.checks ≤ max_checks) × (check_item_bytes * s.checks ≤ length bytes.now) × (checks.old ≡ no_checks) }
    ensures { Reopens (settled_by s.undone (asks_at bytes.now (length bytes.now - check_item_bytes * s.checks) s.checks) board journal.now) result journal.now checks.new }
{
    if is_undone_solved(board.solved, s.undone) {
        return Err(ReopenError::UndoneWhenSolved);
    }
    let mut back = board;
    take_back_all(s.undone, &mut back, &journal);
    read_checks(
        bytes,
        bytes.len() - CHECK_ITEM * s.checks,
        s.checks,
        &back,
        checks,
    )?;
    back.checks = s.checks;
    Ok(back)
}

// A record whose lent lengths are right, over memory of zeros.
// What a refused one leaves there is the caller's to clear.
fn reopened(
    bytes: &[u8],
    solution: &[u8],
    journal: &mut [u8],
    checks: &mut [u8],
) -> Result<Board, ReopenError>
    requires { (length solution.now ≡ 81) × (journal.old ≡ no_moves) × (checks.old ≡ no_checks) }
    ensures { Reopens (reopened_of bytes.now solution.now) result journal.new checks.new }
{
    let rows = rows_of(solution);
    let s = read_record(bytes, rows)?;
    let givens = GivenBytes {
        bytes,
        layout: Layout::Items,
        count: s.givens,
    };
    let board = Board::fresh(givens, rows);
    let last = replay(bytes, GIVEN_ITEM * s.givens, s.moves, board, journal)?;
    settle(bytes, s, last, journal, checks)
}

// Reopens a record. A refusal by anything but 1 leaves both memories zero; so its answer is made here, and not by one
// function for opening and reopening.
pub fn reopen(bytes: &[u8], solution: &[u8], journal: &mut [u8], checks: &mut [u8]) -> Answer
    ensures { Gives (reopen_of bytes.now solution.now journal.old checks.old) result journal.new checks.new }
{
    if !lent_lengths(solution.len(), journal.len(), checks.len()) {
        return wrong_length();
    }
    journal.fill(0);
    checks.fill(0);
    match reopened(bytes, solution, journal, checks) {
        Ok(board) => Answer {
            refusal: accepted(),
            board,
        },
        Err(e) => {
            journal.fill(0);
            checks.fill(0);
            Answer {
                refusal: e.into(),
                board: zero_board(),
            }
        }
    }
}

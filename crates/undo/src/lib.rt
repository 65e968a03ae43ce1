// Undo and redo: a recorded move taken back, and performed again, as its slot says. No slot is written.
// A call asks whether its slot is sound before it changes anything, and
// digit and marks when it changes them; a refused one puts the board back.
#![tactic(auto)]

pub mod asking;
pub mod digits;
pub mod direction;
pub mod marks;

ghost use Rattle.std.specs.Prelude.{◌≡◌, IfOk};
ghost use Rattle.sudoku.specs.Tests.{first};
ghost use Rattle.puzzle.specs.Refusals.{told};
ghost use Rattle.journal.specs.State.{perform_again};
ghost use Rattle.journal.specs.Slots.{move_of};
ghost use Rattle.board.specs.Board.{state_of, counts_of, moved};
ghost use Rattle.board.specs.Errors.{number_told};
ghost use Rattle.board.specs.Open.{answer};
ghost use Rattle.play.specs.Play.{undo_of, redo_of};
ghost use Rattle.undo.specs.Code.Ways.{before_slot, call_of};

use board::error::PlayError;
use board::value::lent;
use board::{Answer, Board};
use direction::{Again, Back, Direction};
use journal::slots::{is_sound, slot_at};
use journal::{JOURNAL_BYTES, Slot};
use play::sound::Unsound;
use puzzle::Refusal;
use puzzle::answer::accepted;

// The number of the slot that a call asks, of a journal of so many bytes. Refused by 1 2 4, and by 12 or 13.
#[tactic(auto, unfolding(sudoku::specs::Tests::first, sudoku::specs::Tests::pick, board::specs::Board::lent_tests, board::specs::Board::counts_of, crate::specs::Code::Ways::before_slot))]
fn slot_asked<D: Direction>(board: Board, length: usize) -> Result<usize, PlayError>
    ensures number { number_told result ≡ first (before_slot D.way board length) }
    ensures slot { IfOk result (λ n. n ≡ D.way.slot (counts_of board)) }
{
    lent(board, length == JOURNAL_BYTES)?;
    if board.solved != 0 {
        return Err(PlayError::Solved);
    }
    D::slot(board.counts())
}

// A recorded move gone over on a board in place, of which `before` is a copy; a refused one leaves it.
// It is kept apart: where the compiler lays it into its caller, a call takes 15 to 20 ns longer.
#[inline(never)]
fn go<D: Direction>(board: &mut Board, before: Board, journal: &[u8]) -> Result<(), Refusal>
    requires { board.old ≡ before }
    ensures { answer (told (λ r. r) result) board.new ≡ call_of D.way before journal.now }
{
    let n = slot_asked::<D>(before, journal.len())?;
    let slot = slot_at(journal, n);
    if !is_sound(&board.given, slot) {
        return Err(Refusal::from(Unsound::Slot { index: n })); // before anything is changed
    }
    let digit_stood = digits::put::<D>(board, slot);
    let marks_stood = marks::change::<D>(board, slot);
    if !(digit_stood & marks_stood) {
        *board = before; // without the marks changed
        return Err(Refusal::from(Unsound::Slot { index: n }));
    }
    let mut counts = before.counts();
    D::step(&mut counts);
    board.set_counts(counts);
    Ok(())
}

// Undo and redo stay two functions of a few lines: one more call between them and `go` would copy the answer once more.

// Takes back the latest standing move. Refused by 1 2 4 12 14.
#[tactic(auto, unfolding(crate::specs::Code::Ways::call_of, crate::specs::Code::Ways::before_slot, crate::specs::Code::Ways::fits, board::specs::Board::counts_of, play::specs::Play::undo_of, play::specs::Play::undo_tests, play::specs::Play::undo_before, play::specs::Play::can_take_back, play::specs::Play::undone))]
pub fn undo(board: Board, journal: &[u8]) -> Answer
    ensures { result ≡ undo_of board journal.now }
{
    let mut answer = Answer {
        refusal: accepted(),
        board,
    };
    if let Err(refusal) = go::<Back>(&mut answer.board, board, journal) {
        answer.refusal = refusal;
    }
    answer
}

// Performs the next undone move again. Refused by 1 2 4 13 14.
#[tactic(auto, unfolding(crate::specs::Code::Ways::call_of, crate::specs::Code::Ways::before_slot, crate::specs::Code::Ways::fits, board::specs::Board::counts_of, play::specs::Play::redo_of, play::specs::Play::redo_tests, play::specs::Play::redo_before, play::specs::Play::can_retake, play::specs::Play::redone))]
pub fn redo(board: Board, journal: &[u8]) -> Answer
    ensures { result ≡ redo_of board journal.now }
{
    let mut answer = Answer {
        refusal: accepted(),
        board,
    };
    if let Err(refusal) = go::<Again>(&mut answer.board, board, journal) {
        answer.refusal = refusal;
    }
    answer
}

// Undo on a board in place; a refused one leaves it. Reopening takes back so, one move after the other.
#[tactic(auto, using(crate::proofs::Going::left), unfolding(crate::specs::Code::Ways::call_of, crate::specs::Code::Ways::before_slot, crate::specs::Code::Ways::fits, board::specs::Board::counts_of, play::specs::Play::undo_of, play::specs::Play::undo_tests, play::specs::Play::undo_before, play::specs::Play::can_take_back, play::specs::Play::undone))]
pub fn take_back(board: &mut Board, journal: &[u8])
    ensures { board.new ≡ (undo_of board.old journal.now).board }
{
    let before = *board;
    let _ = go::<Back>(board, before, journal);
}

// A recorded move performed again on a board in place, however it stands; the
// counts stay. Readings go so from slot to slot.
#[tactic(auto, unfolding(board::specs::Board::state_of, board::specs::Board::counts_of, board::specs::Board::board_of, board::specs::Board::moved))]
pub fn perform_again(board: &mut Board, slot: Slot)
    ensures { board.new ≡ moved board.old (perform_again (state_of board.old) (move_of slot) slot.struck) (counts_of board.old) }
{
    digits::put::<Again>(board, slot);
    marks::change::<Again>(board, slot);
}

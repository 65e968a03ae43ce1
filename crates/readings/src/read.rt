// The reading of move k: what its slot holds, whether it is undone,
// and the board as it stood after it. Refused by 1 2 14 35. Board, journal and k are what C hands over, one by one.
ghost use Rattle.std.specs.Prelude.{◌≡◌};
ghost use Rattle.puzzle.specs.Refusals.{told};
ghost use Rattle.readings.specs.Errors.{reading_error_refusal};
ghost use Rattle.readings.specs.Reading.{reading_refusal, reading as reading_at, no_reading, reading_of};

use crate::Reading;
use crate::error::ReadingError;
use crate::replay::after;
use board::Board;
use board::value::lent;
use journal::slots::slot_at;
use journal::{JOURNAL_BYTES, Move};
use play::sound::all_sound;
use puzzle::Refusal;
use puzzle::answer::accepted;

// Whether move k may be read: 1; 2; 14 of the first unsound slot of all that were made; 35.
#[tactic(auto, using(board::proofs::Told::has_number), unfolding(crate::specs::Reading::reading_refusal, play::specs::Play::journal_refusal, puzzle::specs::Refusals::or_else, puzzle::specs::Refusals::refused_if, puzzle::specs::Refusals::is_accepted, sudoku::specs::Tests::both, sudoku::specs::Tests::pick))]
fn reading_test(board: Board, journal: &[u8], k: usize) -> Result<(), ReadingError>
    ensures { told reading_error_refusal result ≡ reading_refusal board journal.now k }
{
    lent(board, journal.len() == JOURNAL_BYTES)?;
    all_sound::<Move>(&board.given, journal, board.made)?;
    if k == 0 || k > board.made {
        return Err(ReadingError::NoSuchMove);
    }
    Ok(())
}

// What a refused reading hands back.
#[tactic(auto, unfolding(crate::specs::Reading::no_reading))]
fn no_reading(refusal: Refusal) -> Reading
    ensures { result ≡ no_reading refusal }
{
    Reading {
        refusal,
        kind: 0,
        row: 0,
        column: 0,
        digit: 0,
        undone: false,
        index: 0,
        digits: [0u8; 81],
        notes: [0u16; 81],
    }
}

// The reading of a move that was made. A move above the standing count is undone.
#[tactic(auto, unfolding(crate::specs::Reading::reading, crate::specs::Reading::board_after, board::specs::Board::board_of, board::specs::Board::moved))]
fn reading_at(board: Board, journal: &[u8], k: usize) -> Reading
    ensures { result ≡ reading_at board journal.now k }
{
    let slot = slot_at(journal, k);
    let stood = after(board, journal, k);
    let digits = stood.digits;
    let notes = stood.notes;
    Reading {
        refusal: accepted(),
        kind: slot.kind,
        row: slot.row,
        column: slot.column,
        digit: slot.digit,
        undone: board.standing < k,
        index: k,
        digits,
        notes,
    }
}

// The reading of move k, counted from 1.
#[tactic(auto, using(crate::proofs::Refused::refuses), unfolding(crate::specs::Reading::reading_of, puzzle::specs::Refusals::is_accepted, sudoku::specs::Tests::pick))]
pub fn reading(board: Board, journal: &[u8], k: usize) -> Reading
    ensures { result ≡ reading_of board journal.now k }
{
    match reading_test(board, journal, k) {
        Ok(()) => reading_at(board, journal, k),
        Err(e) => no_reading(e.into()),
    }
}

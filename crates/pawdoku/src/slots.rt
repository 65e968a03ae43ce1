// What the journal shows: the latest standing move, the next to redo, and the reading of move k.
// A part of the journal cannot be returned over the C boundary: the slot's bytes are copied and its offset is answered.
ghost use Rattle.std.specs.Prelude.{◌≡◌, ◌*◌, ◌^◌, ◌<◌, length, IfOk, MatchResult};
ghost use Rattle.journal.specs.Limits.{slot_bytes};
ghost use Rattle.board.specs.Errors.{play_number};
ghost use Rattle.readings.specs.Reading.{reading_of};
ghost use Rattle.pawdoku.specs.Library.{not_shown, shown, latest_shown, next_shown};

use crate::Shown;
use board::Board;
use board::error::PlayError;
use journal::SLOT_BYTES;
use play::shown::{Latest, Next, slot_shown};
use puzzle::Refusal;
use puzzle::answer::accepted;
use readings::Reading;
use record::error::WriteError;

// Zeros beside a refusal.
fn not_shown(refusal: Refusal) -> Shown
    ensures { result ≡ record { refusal = refusal; offset = 0; length = 0 } }
{
    Shown {
        refusal,
        offset: 0,
        length: 0,
    }
}

// The part that holds the slot behind `others`, copied to the output's start; refused as the slot is, and by 34 where
// the output is too short, of which the record's writing has the error.
#[tactic(auto, unfolding(crate::specs::Library::shown, crate::specs::Library::not_shown, crate::specs::Library::shown_at, crate::specs::Library::show_number, sudoku::specs::Tests::first, sudoku::specs::Tests::pick, journal::specs::Bytes::over))]
fn shown(slot: Result<&[u8], PlayError>, others: usize, output: &mut [u8]) -> Shown
    requires { IfOk slot (λ part. (length part.now ≡ slot_bytes) × (slot_bytes * others < 2 ^ 64)) }
    ensures value { MatchResult slot.entry (λ part. result ≡ (shown 0 (slot_bytes * others) part.now output.old).answer) (λ e. result ≡ not_shown (play_number e)) }
    ensures output_after { MatchResult slot.entry (λ part. output.new ≡ (shown 0 (slot_bytes * others) part.now output.old).output) (λ _. output.new ≡ output.old) }
{
    let part = match slot {
        Ok(part) => part,
        Err(e) => return not_shown(e.into()),
    };
    if output.len() < SLOT_BYTES {
        return not_shown(WriteError::OutputTooShort.into());
    }
    output[..SLOT_BYTES].copy_from_slice(part);
    Shown {
        refusal: accepted(),
        offset: SLOT_BYTES * others,
        length: SLOT_BYTES,
    }
}

#[tactic(auto, unfolding(board::specs::Board::counts_of, play::specs::Play::latest_number, play::specs::Play::latest_part, play::specs::Code::Turns::shown_number, play::specs::Code::Turns::shown_part, crate::specs::Library::latest_shown, crate::specs::Library::shown, crate::specs::Library::not_shown, crate::specs::Library::show_number, sudoku::specs::Tests::first, sudoku::specs::Tests::pick))]
pub fn pawdoku_latest(board: Board, journal: &[u8], output: &mut [u8]) -> Shown
    ensures value { result ≡ (latest_shown board journal.now output.old).answer }
    ensures output_after { output.new ≡ (latest_shown board journal.now output.old).output }
{
    let slot = slot_shown::<Latest>(board, journal);
    shown(slot, board.standing.saturating_sub(1), output)
}

#[tactic(auto, unfolding(board::specs::Board::counts_of, play::specs::Play::next_number, play::specs::Play::next_part, play::specs::Code::Turns::shown_number, play::specs::Code::Turns::shown_part, crate::specs::Library::next_shown, crate::specs::Library::shown, crate::specs::Library::not_shown, crate::specs::Library::show_number, sudoku::specs::Tests::first, sudoku::specs::Tests::pick))]
pub fn pawdoku_next(board: Board, journal: &[u8], output: &mut [u8]) -> Shown
    ensures value { result ≡ (next_shown board journal.now output.old).answer }
    ensures output_after { output.new ≡ (next_shown board journal.now output.old).output }
{
    let slot = slot_shown::<Next>(board, journal);
    shown(slot, board.standing, output)
}

pub fn pawdoku_reading(board: Board, journal: &[u8], k: usize) -> Reading
    ensures { result ≡ reading_of board journal.now k }
{
    readings::read::reading(board, journal, k)
}

// Calls read from bytes. specs/Encoded has the encoding; crate pawdoku runs them and writes their answers.
ghost use Rattle.std.specs.Prelude.{◌≡◌, ◌/◌, ◌≤◌};
ghost use Rattle.calls.specs.Encoded.{call_bytes, decode as decode_of, groups as groups_of};

use crate::{
    CALL_BYTES, CALL_CHECK, CALL_ERASE, CALL_PENCIL, CALL_PLACE, CALL_REDO, CALL_UNDO, Call,
};
use play::Play;

// What four bytes encode; nothing where the first is that of no call.
#[tactic(auto, unfolding(crate::specs::Encoded::decode, crate::specs::Encoded::decode_other, sudoku::specs::Tests::pick))]
pub fn decode(kind: u8, row: u8, column: u8, digit: u8) -> Option<Call>
    ensures { result ≡ decode_of kind row column digit }
{
    match kind {
        CALL_PLACE => Some(Call::Make(Play::Place { row, column, digit })),
        CALL_ERASE => Some(Call::Make(Play::Erase { row, column })),
        CALL_PENCIL => Some(Call::Make(Play::Pencil { row, column, digit })),
        CALL_UNDO => Some(Call::Undo),
        CALL_REDO => Some(Call::Redo),
        CALL_CHECK => Some(Call::Check { row, column }),
        _ => None,
    }
}

// How many calls are run: as many as there are whole groups of four in both.
#[tactic(auto, unfolding(crate::specs::Encoded::groups))]
pub fn groups(calls: usize, answers: usize) -> usize
    ensures { (result ≡ groups_of calls answers) × (result ≤ calls / call_bytes) × (result ≤ answers / call_bytes) }
{
    (calls / CALL_BYTES).min(answers / CALL_BYTES)
}

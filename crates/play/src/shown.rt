// The latest standing move and the next to redo, shown as the part
// of the lent journal that holds it. A solved board is no obstacle.
ghost use Rattle.std.specs.Prelude.{◌≡◌, ◌*◌, ◌≤◌, ℕ, [], ◌∷◌, length, IfOk};
ghost use Rattle.sudoku.specs.Tests.{Test, first};
ghost use Rattle.journal.specs.declared.Counts.{Counts};
ghost use Rattle.journal.specs.Limits.{slot_bytes};
ghost use Rattle.journal.specs.Slots.{slot_part};
ghost use Rattle.board.specs.Errors.{number_told};
ghost use Rattle.play.specs.Code.Turns.{latest_none, latest_at, next_none, next_at, shown_number, shown_part, Within};
ghost use Rattle.play.specs.Code.Kept.{latest_within, next_within};

use board::Board;
use board::error::PlayError;
use board::value::lent;
use journal::{Counts, JOURNAL_BYTES, SLOT_BYTES};

// Which of the moves at the standing count: the latest, which undo takes back, or the next, which redo makes again.
pub trait Turn {
    // The test that there is none, and the number of its slot.
    ghost none: { Counts → Test };

    ghost at: { Counts → ℕ };

    ghost within: { Within none at };

    fn slot(counts: Counts) -> Result<usize, PlayError>
        ensures number { number_told result ≡ first (none counts ∷ []) }
        ensures slot { IfOk result (λ n. n ≡ at counts) };
}

pub struct Latest;

#[tactic(auto, unfolding(sudoku::specs::Tests::first, sudoku::specs::Tests::pick))]
impl Turn for Latest {
    ghost none = { latest_none };

    ghost at = { latest_at };

    ghost within = { latest_within };

    fn slot(counts: Counts) -> Result<usize, PlayError> {
        if counts.standing == 0 {
            return Err(PlayError::NothingToUndo);
        }
        Ok(counts.standing)
    }
}

pub struct Next;

#[tactic(auto, unfolding(sudoku::specs::Tests::first, sudoku::specs::Tests::pick))]
impl Turn for Next {
    ghost none = { next_none };

    ghost at = { next_at };

    ghost within = { next_within };

    fn slot(counts: Counts) -> Result<usize, PlayError> {
        if counts.made <= counts.standing {
            return Err(PlayError::NothingToRedo);
        }
        Ok(counts.standing + 1)
    }
}

// The part that holds slot n, n from 1.
fn slot_part(journal: &[u8], n: usize) -> &[u8]
    requires { (1 ≤ n) × (slot_bytes * n ≤ length journal.now) }
    ensures { result.now ≡ slot_part journal.now n }
{
    let start = SLOT_BYTES * (n - 1);
    &journal[start..start + SLOT_BYTES]
}

// The latest standing move, or the next to redo. Refused by 1 2, and by 12 or 13.
pub fn slot_shown<T: Turn>(board: Board, journal: &[u8]) -> Result<&[u8], PlayError>
    ensures number { number_told result ≡ shown_number T.none board journal.now }
    ensures part { IfOk result (λ part. part.now ≡ shown_part T.none T.at board journal.now) }
{
    lent(board, journal.len() == JOURNAL_BYTES)?;
    let n = T::slot(board.counts())?;
    Ok(slot_part(journal, n))
}

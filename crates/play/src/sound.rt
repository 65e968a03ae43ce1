// 14 of slots and of stored checks, which writing and readings test after 1 and 2.
ghost use Rattle.std.specs.Prelude.{◌≡◌, ℕ, List};
ghost use Rattle.puzzle.specs.declared.Refusal.{Refusal};
ghost use Rattle.puzzle.specs.Refusals.{told, first_refused};
ghost use Rattle.play.specs.Play.{unsound_slot, unsound_check};
ghost use Rattle.play.specs.Unsound.{unsound_refusal};

use journal::checks::is_sound_check;
use journal::slots::{is_sound, slot_at};
use journal::{Asked, Move};
use puzzle::Refusal;
use puzzle::answer::refusal;

// What is lent and is not sound: 14 of a slot, whose number is the place, or of a stored check, inner 1.
#[derive(Clone, Copy, Debug, PartialEq, Eq)]
pub enum Unsound {
    Slot { index: usize },
    Check { index: usize },
}

impl From<Unsound> for Refusal {
    ghost from_gives = { λ e r. r ≡ unsound_refusal e };

    fn from(e: Unsound) -> Refusal {
        match e {
            Unsound::Slot { index } => refusal(14, index, 0),
            Unsound::Check { index } => refusal(14, index, 1),
        }
    }
}

// What lent memory holds one behind the other, numbered from 1, and 14 speaks of: slots, by the move that one holds,
// and stored checks, by what one asked.
pub trait Stored {
    ghost unsound: { List ℕ → List ℕ → ℕ → Refusal };

    fn sound(given: &[u8; 81], memory: &[u8], index: usize) -> Result<(), Unsound>
        ensures { told unsound_refusal result ≡ unsound given.now memory.now index };
}

impl Stored for Move {
    ghost unsound = { unsound_slot };

    #[tactic(auto, unfolding(crate::specs::Play::unsound_slot, puzzle::specs::Refusals::refused_if, sudoku::specs::Tests::pick))]
    fn sound(given: &[u8; 81], journal: &[u8], index: usize) -> Result<(), Unsound> {
        if !is_sound(given, slot_at(journal, index)) {
            return Err(Unsound::Slot { index });
        }
        Ok(())
    }
}

impl Stored for Asked {
    ghost unsound = { unsound_check };

    #[tactic(auto, unfolding(crate::specs::Play::unsound_check, puzzle::specs::Refusals::refused_if, sudoku::specs::Tests::pick))]
    fn sound(given: &[u8; 81], checks: &[u8], index: usize) -> Result<(), Unsound> {
        if !is_sound_check(given, checks, index) {
            return Err(Unsound::Check { index });
        }
        Ok(())
    }
}

// 14 of the first of the slots, or of the checks, 1 to count that is unsound.
#[tactic(auto, using(puzzle::proofs::Refusals::walk_refused, puzzle::proofs::Refusals::walk_more, puzzle::proofs::Refusals::walk_all, crate::proofs::Accepted::unsound_numbered))]
pub fn all_sound<S: Stored>(given: &[u8; 81], memory: &[u8], count: usize) -> Result<(), Unsound>
    ensures { told unsound_refusal result ≡ first_refused (S.unsound given.now memory.now) count 1 }
{
    for index in 1..=count {
        S::sound(given, memory, index)?;
    }
    Ok(())
}

// Why a setter's givens and solution are no well-posed puzzle.
ghost use Rattle.std.specs.Prelude.{◌≡◌};
ghost use Rattle.puzzle.specs.Errors.{well_posed_refusal};

use crate::Refusal;
use crate::answer::refusal;

// Cells count from 1, and so do the givens' indexes.
#[derive(Clone, Copy, PartialEq, Eq)]
pub enum WellPosedError {
    NotAscending,
    NothingLeftToPlay,
    SolutionNotFull { cell: usize },
    SolutionDigitOutOfRange { cell: usize },
    SolutionConflict { cell: usize, peer: u8 },
    GivenOffGrid { index: usize },
    GivenMismatch { index: usize },
}

impl From<WellPosedError> for Refusal {
    ghost from_gives = { λ e r. r ≡ well_posed_refusal e };

    fn from(e: WellPosedError) -> Refusal {
        match e {
            WellPosedError::NotAscending => refusal(19, 0, 0),
            WellPosedError::NothingLeftToPlay => refusal(22, 0, 0),
            WellPosedError::SolutionNotFull { cell } => refusal(23, cell, 0),
            WellPosedError::SolutionDigitOutOfRange { cell } => refusal(24, cell, 0),
            WellPosedError::SolutionConflict { cell, peer } => refusal(25, cell, peer),
            WellPosedError::GivenOffGrid { index } => refusal(26, index, 0),
            WellPosedError::GivenMismatch { index } => refusal(27, index, 0),
        }
    }
}

// Why a record is not written, and why the bytes of one are not reopened. Over C a refusal is the numbered struct.
ghost use Rattle.std.specs.Prelude.{◌≡◌};
ghost use Rattle.record.specs.declared.error.WriteError.TheVariants.{Play, Unsound as NotSound};
ghost use Rattle.record.specs.declared.error.ReopenError.TheVariants.{WellPosed};
ghost use Rattle.record.specs.Errors.{write_error_refusal, reopen_refusal};

use board::error::PlayError;
use play::sound::Unsound;
use puzzle::Refusal;
use puzzle::answer::refusal;
use puzzle::error::WellPosedError;

#[derive(Clone, Copy, Debug, PartialEq, Eq)]
pub enum WriteError {
    // the lent memory is too short, or the board is none
    Play(PlayError),
    Unsound(Unsound),
    OutputTooShort,
}

impl From<PlayError> for WriteError {
    ghost from_gives = { λ e r. r ≡ Play e };

    fn from(e: PlayError) -> WriteError {
        WriteError::Play(e)
    }
}

impl From<Unsound> for WriteError {
    ghost from_gives = { λ e r. r ≡ NotSound e };

    fn from(e: Unsound) -> WriteError {
        WriteError::Unsound(e)
    }
}

impl From<WriteError> for Refusal {
    ghost from_gives = { λ e r. r ≡ write_error_refusal e };

    fn from(e: WriteError) -> Refusal {
        match e {
            WriteError::Play(e) => e.into(),
            WriteError::Unsound(e) => e.into(),
            WriteError::OutputTooShort => refusal(34, 0, 0),
        }
    }
}

// Items, moves and checks count from 1.
#[derive(Clone, Copy, PartialEq, Eq)]
pub enum ReopenError {
    Malformed { item: usize },
    Oversized,
    WellPosed(WellPosedError),
    TooManyUndone,
    ChecksWithoutMoves,
    MoveAfterSolved { index: usize },
    MoveRefused { index: usize, why: PlayError },
    UndoneWhenSolved,
    CheckRefused { index: usize, why: PlayError },
    CheckAfterNoMove { index: usize },
    CheckSolved { index: usize },
}

impl From<WellPosedError> for ReopenError {
    ghost from_gives = { λ e r. r ≡ WellPosed e };

    fn from(e: WellPosedError) -> ReopenError {
        ReopenError::WellPosed(e)
    }
}

impl From<ReopenError> for Refusal {
    ghost from_gives = { λ e r. r ≡ reopen_refusal e };

    fn from(e: ReopenError) -> Refusal {
        match e {
            ReopenError::Malformed { item } => refusal(17, item, 0),
            ReopenError::Oversized => refusal(18, 0, 0),
            ReopenError::WellPosed(e) => e.into(),
            ReopenError::TooManyUndone => refusal(20, 0, 0),
            ReopenError::ChecksWithoutMoves => refusal(21, 0, 0),
            ReopenError::MoveAfterSolved { index } => refusal(28, index, 0),
            ReopenError::MoveRefused { index, why } => refusal(29, index, why.number()),
            ReopenError::UndoneWhenSolved => refusal(30, 0, 0),
            ReopenError::CheckRefused { index, why } => refusal(31, index, why.number()),
            ReopenError::CheckAfterNoMove { index } => refusal(32, index, 0),
            ReopenError::CheckSolved { index } => refusal(33, index, 0),
        }
    }
}

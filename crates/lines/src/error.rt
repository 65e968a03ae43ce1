// Why a line is not read, and why a board is not written as one. Over C a refusal is the numbered struct.
ghost use Rattle.std.specs.Prelude.{◌≡◌};
ghost use Rattle.lines.specs.declared.error.LineError.TheVariants.{Play};
ghost use Rattle.lines.specs.Errors.{line_error_refusal};

use board::error::PlayError;
use puzzle::Refusal;
use puzzle::answer::refusal;

#[derive(Clone, Copy, Debug, PartialEq, Eq)]
pub enum LineError {
    // the board is none
    Play(PlayError),
    OutputTooShort,
    NotALine,
    // characters count from 1
    OtherSort { character: usize },
}

impl From<PlayError> for LineError {
    ghost from_gives = { λ e r. r ≡ Play e };

    fn from(e: PlayError) -> LineError {
        LineError::Play(e)
    }
}

impl From<LineError> for Refusal {
    ghost from_gives = { λ e r. r ≡ line_error_refusal e };

    fn from(e: LineError) -> Refusal {
        match e {
            LineError::Play(e) => e.into(),
            LineError::OutputTooShort => refusal(34, 0, 0),
            LineError::NotALine => refusal(36, 0, 0),
            LineError::OtherSort { character } => refusal(37, character, 0),
        }
    }
}

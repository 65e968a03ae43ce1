// Why a reading is refused. Over C a refusal is the numbered struct.
ghost use Rattle.std.specs.Prelude.{◌≡◌};
ghost use Rattle.readings.specs.declared.error.ReadingError.TheVariants.{Play, Unsound as NotSound};
ghost use Rattle.readings.specs.Errors.{reading_error_refusal};

use board::error::PlayError;
use play::sound::Unsound;
use puzzle::Refusal;
use puzzle::answer::refusal;

#[derive(Clone, Copy, Debug, PartialEq, Eq)]
pub enum ReadingError {
    // the journal has not its length, or the board is none
    Play(PlayError),
    Unsound(Unsound),
    NoSuchMove,
}

impl From<PlayError> for ReadingError {
    ghost from_gives = { λ e r. r ≡ Play e };

    fn from(e: PlayError) -> ReadingError {
        ReadingError::Play(e)
    }
}

impl From<Unsound> for ReadingError {
    ghost from_gives = { λ e r. r ≡ NotSound e };

    fn from(e: Unsound) -> ReadingError {
        ReadingError::Unsound(e)
    }
}

impl From<ReadingError> for Refusal {
    ghost from_gives = { λ e r. r ≡ reading_error_refusal e };

    fn from(e: ReadingError) -> Refusal {
        match e {
            ReadingError::Play(e) => e.into(),
            ReadingError::Unsound(e) => e.into(),
            ReadingError::NoSuchMove => refusal(35, 0, 0),
        }
    }
}

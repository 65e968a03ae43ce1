// Why a call that plays, undoes, checks or asks is refused: the numbers 1 to 13, 15 and 16, whose tests come in
// this order. Over C a refusal is the numbered struct; within, a test answers `Result<(), PlayError>`.
ghost use Rattle.std.specs.Prelude.{◌≡◌};
ghost use Rattle.board.specs.Errors.{play_number, play_refusal};

use puzzle::Refusal;
use puzzle::answer::refusal;

#[derive(Clone, Copy, Debug, PartialEq, Eq)]
pub enum PlayError {
    WrongLength = 1,
    NotABoard = 2,
    NoSuchCell = 3,
    Solved = 4,
    GivenCell = 5,
    NoPlayersDigit = 6,
    MarksNotAccepted = 7,
    DigitOutOfRange = 8,
    DigitAlreadyStands = 9,
    MarkAlreadyWritten = 10,
    MarkNotThere = 11,
    NothingToUndo = 12,
    NothingToRedo = 13,
    JournalFull = 15,
    ChecksFull = 16,
}

impl PlayError {
    // The refusal's number. By `as`: it is the variant's own.
    pub fn number(self) -> u8
        ensures { result ≡ play_number self }
    {
        self as u8
    }
}

impl From<PlayError> for Refusal {
    ghost from_gives = { λ e r. r ≡ play_refusal e };

    fn from(e: PlayError) -> Refusal {
        refusal(e.number(), 0, 0)
    }
}

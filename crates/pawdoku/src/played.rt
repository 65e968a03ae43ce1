// The play calls, one at a time.
ghost use Rattle.std.specs.Prelude.{◌≡◌};
ghost use Rattle.play.specs.Play.{play_of, place_of, erase_of, pencil_of, undo_of, redo_of};
ghost use Rattle.play.specs.Check.{check_of};

use board::error::PlayError;
use board::{Answer, Board, Checked};
use journal::JOURNAL_BYTES;
use play::Play;

// A call that makes a move. Number 1 is asked here, so that a call that is refused at once copies the board once.
#[tactic(auto, unfolding(play::specs::Play::play_of, play::specs::Play::call_tests, board::specs::Board::lent_tests, sudoku::specs::Tests::first, sudoku::specs::Tests::pick))]
fn made(board: Board, journal: &mut [u8], p: Play) -> Answer
    ensures value { result ≡ (play_of board journal.old p).answer }
    ensures journal_after { journal.new ≡ (play_of board journal.old p).journal }
{
    if journal.len() != JOURNAL_BYTES {
        return Answer {
            refusal: PlayError::WrongLength.into(),
            board,
        };
    }
    play::moves::play(board, journal, p)
}

#[tactic(auto, unfolding(play::specs::Play::place_of))]
pub fn pawdoku_place(board: Board, journal: &mut [u8], row: u8, column: u8, digit: u8) -> Answer
    ensures value { result ≡ (place_of board journal.old row column digit).answer }
    ensures journal_after { journal.new ≡ (place_of board journal.old row column digit).journal }
{
    made(board, journal, Play::Place { row, column, digit })
}

#[tactic(auto, unfolding(play::specs::Play::erase_of))]
pub fn pawdoku_erase(board: Board, journal: &mut [u8], row: u8, column: u8) -> Answer
    ensures value { result ≡ (erase_of board journal.old row column).answer }
    ensures journal_after { journal.new ≡ (erase_of board journal.old row column).journal }
{
    made(board, journal, Play::Erase { row, column })
}

#[tactic(auto, unfolding(play::specs::Play::pencil_of))]
pub fn pawdoku_pencil(board: Board, journal: &mut [u8], row: u8, column: u8, digit: u8) -> Answer
    ensures value { result ≡ (pencil_of board journal.old row column digit).answer }
    ensures journal_after { journal.new ≡ (pencil_of board journal.old row column digit).journal }
{
    made(board, journal, Play::Pencil { row, column, digit })
}

pub fn pawdoku_undo(board: Board, journal: &[u8]) -> Answer
    ensures { result ≡ undo_of board journal.now }
{
    undo::undo(board, journal)
}

pub fn pawdoku_redo(board: Board, journal: &[u8]) -> Answer
    ensures { result ≡ redo_of board journal.now }
{
    undo::redo(board, journal)
}

pub fn pawdoku_check(board: Board, checks: &mut [u8], row: u8, column: u8) -> Checked
    ensures value { result ≡ (check_of board checks.old row column).answer }
    ensures checks_after { checks.new ≡ (check_of board checks.old row column).checks }
{
    play::checks::check(board, checks, row, column)
}

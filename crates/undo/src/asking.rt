// What undo and redo ask before they look at a slot, in the order of the numbers, for those who ask without the call.
ghost use Rattle.std.specs.Prelude.{◌≡◌, ◌<◌};
ghost use Rattle.sudoku.specs.Tests.{first};
ghost use Rattle.play.specs.Play.{undo_before, redo_before};
ghost use Rattle.undo.specs.Code.Ways.{before_slot};

use crate::direction::{Again, Back, Direction};
use crate::slot_asked;
use board::Board;

// The number by which a direction is refused before its slot is asked; 0 where it is not.
fn number<D: Direction>(board: Board, length: usize) -> u8
    ensures { (result ≡ first (before_slot D.way board length)) × (result < 14) }
{
    match slot_asked::<D>(board, length) {
        Ok(_) => 0,
        Err(e) => e.number(),
    }
}

// Why undo is refused before its slot is asked: 1 2 4 12. 0 where it is not.
#[tactic(auto, unfolding(crate::specs::Code::Ways::before_slot, board::specs::Board::counts_of, play::specs::Play::undo_before))]
pub fn undo_number(board: Board, length: usize) -> u8
    ensures { (result ≡ first (undo_before board length)) × (result < 14) }
{
    number::<Back>(board, length)
}

// Why redo is refused before its slot is asked: 1 2 4 13. 0 where it is not.
#[tactic(auto, unfolding(crate::specs::Code::Ways::before_slot, board::specs::Board::counts_of, play::specs::Play::redo_before))]
pub fn redo_number(board: Board, length: usize) -> u8
    ensures { (result ≡ first (redo_before board length)) × (result < 14) }
{
    number::<Again>(board, length)
}

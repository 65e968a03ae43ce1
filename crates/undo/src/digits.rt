// The digit of a recorded move, in place; it is asked when it is changed, as the marks are.
ghost use Rattle.std.specs.Prelude.{◌≡◌};
ghost use Rattle.sudoku.specs.Grid.{cell_of};
ghost use Rattle.journal.specs.Slots.{digit_change};
ghost use Rattle.board.specs.Board.{state_of, counts_of, moved};
ghost use Rattle.undo.specs.Code.Ways.{digit_gone, digit_stood};

use crate::direction::Direction;
use board::Board;
use journal::Slot;
use journal::slots::digit_change;
use puzzle::digit_at;
use sudoku::cell_of;

// The digit put that stands after the change, which settles the status; answered is whether the one before it
// stood there. A move that changes no digit leaves all, and its caller goes on to the marks (docs/DECISIONS.md, 36).
// It is laid into its callers: as a call of its own, for each slot that a reading performs, a reading takes a quarter
// longer.
#[inline(always)]
#[tactic(auto, unfolding(board::specs::Board::state_of, board::specs::Board::counts_of, board::specs::Board::board_of, board::specs::Board::moved, crate::specs::Code::Ways::digit_gone, crate::specs::Code::Ways::digit_stood))]
pub fn put<D: Direction>(board: &mut Board, slot: Slot) -> bool
    ensures stood { result ≡ digit_stood D.way board.old.digits (cell_of slot.row slot.column) (digit_change slot) }
    ensures board { board.new ≡ moved board.old (digit_gone D.way (state_of board.old) (cell_of slot.row slot.column) (digit_change slot)) (counts_of board.old) }
{
    let change = digit_change(slot);
    let Some(change) = change else {
        return true;
    };
    let turned = D::turned(change);
    let cell = cell_of(slot.row, slot.column);
    let stood = digit_at(&board.digits, cell) == turned.before;
    play::moves::put(board, cell, turned.after);
    stood
}

// The marks of a recorded move, in place. A slot's mask speaks of the peers of its cell. Each change answers
// whether the marks stood as they must before it: one loop over twenty peers does both, and whoever is told
// no puts the notes back.
ghost use Rattle.std.specs.Prelude.{◌≡◌, not};
ghost use Rattle.sudoku.specs.Grid.{at, peers_of};
ghost use Rattle.note.specs.Note.{contains as contains_of};
ghost use Rattle.journal.specs.State.{write_at, strike_at};
ghost use Rattle.journal.specs.Slots.{move_of};
ghost use Rattle.board.specs.Board.{state_of, counts_of, moved};
ghost use Rattle.undo.specs.Code.Ways.{marks_gone, marks_stood};

use crate::direction::Direction;
use board::Board;
use journal::notes::{Strike, Write, change_in, note_at};
use journal::slots::move_of;
use journal::{Move, Slot};
use note::contains;
use sudoku::{cell_of, peers};

// This function and the next differ in a change and a negation: three lines each, and one over both is no plainer.

// The mark written at a cell. Answered is whether it was lacking there.
pub(crate) fn write_lacking(notes: &mut [u16; 81], cell: usize, digit: u8) -> bool
    ensures { (result ≡ not (contains_of (at notes.old cell) digit)) × (notes.new ≡ write_at notes.old cell digit) }
{
    let stood = contains(note_at(notes, cell), digit);
    change_in::<Write>(notes, cell, digit);
    !stood
}

// The mark struck at a cell. Answered is whether it stood there.
pub(crate) fn strike_standing(notes: &mut [u16; 81], cell: usize, digit: u8) -> bool
    ensures { (result ≡ contains_of (at notes.old cell) digit) × (notes.new ≡ strike_at notes.old cell digit) }
{
    let stood = contains(note_at(notes, cell), digit);
    change_in::<Strike>(notes, cell, digit);
    stood
}

// The marks that a place struck from the peers of its cell that are in the mask, and from no
// others. A place that struck nothing has a mask of 0, and needs no peers.
fn displaced<D: Direction>(notes: &mut [u16; 81], cell: usize, digit: u8, mask: u32) -> bool
    ensures { (result ≡ D.way.displaced_stood notes.old digit mask (peers_of cell)) × (notes.new ≡ D.way.displaced notes.old digit mask (peers_of cell)) }
{
    if mask == 0 {
        return true;
    }
    let cells = peers(cell);
    D::displaced(notes, digit, mask, &cells)
}

// Exactly the marks that a recorded move changed.
#[tactic(auto, unfolding(board::specs::Board::state_of, board::specs::Board::counts_of, board::specs::Board::board_of, board::specs::Board::moved, crate::specs::Code::Ways::marks_gone, crate::specs::Code::Ways::marks_stood, journal::specs::State::with_notes))]
pub fn change<D: Direction>(board: &mut Board, slot: Slot) -> bool
    ensures stood { result ≡ marks_stood D.way board.old.notes (move_of slot) slot.struck }
    ensures board { board.new ≡ moved board.old (marks_gone D.way (state_of board.old) (move_of slot) slot.struck) (counts_of board.old) }
{
    let m = move_of(slot);
    let notes = &mut board.notes;
    match m {
        Move::Place { row, column, digit } => {
            displaced::<D>(notes, cell_of(row, column), digit, slot.struck)
        }
        Move::Erase { .. } => true,
        Move::WriteMark { row, column, digit } => D::written(notes, cell_of(row, column), digit),
        Move::StrikeMark { row, column, digit } => D::struck(notes, cell_of(row, column), digit),
    }
}

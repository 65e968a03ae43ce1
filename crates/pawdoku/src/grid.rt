// Notes and the grid, which need no board.
ghost use Rattle.std.specs.Prelude.{◌≡◌};
ghost use Rattle.sudoku.specs.Grid.{cell_of, box_index, is_peer_of};
ghost use Rattle.note.specs.Note.{contains, len_of, is_empty};
ghost use Rattle.pawdoku.specs.Library.{digits_in, peer_cells};

use crate::{Digits, PeerCells};

pub fn pawdoku_note_contains(note: u16, digit: u8) -> bool
    ensures { result ≡ contains note digit }
{
    note::contains(note, digit)
}

pub fn pawdoku_note_len(note: u16) -> usize
    ensures { result ≡ len_of note }
{
    note::len(note)
}

pub fn pawdoku_note_is_empty(note: u16) -> bool
    ensures { result ≡ is_empty note }
{
    note::is_empty(note)
}

#[tactic(auto, unfolding(crate::specs::Library::digits_in))]
pub fn pawdoku_note_digits(note: u16) -> Digits
    ensures { result ≡ digits_in note }
{
    Digits {
        digits: note::digits(note),
    }
}

pub fn pawdoku_cell_of(row: u8, column: u8) -> usize
    ensures { result ≡ cell_of row column }
{
    sudoku::cell_of(row, column)
}

pub fn pawdoku_band(row: u8) -> u8
    ensures { result ≡ box_index row }
{
    sudoku::band(row)
}

pub fn pawdoku_stack(column: u8) -> u8
    ensures { result ≡ box_index column }
{
    sudoku::stack(column)
}

pub fn pawdoku_is_peer_of(row: u8, column: u8, row2: u8, column2: u8) -> bool
    ensures { result ≡ is_peer_of row column row2 column2 }
{
    sudoku::is_peer_of(row, column, row2, column2)
}

#[tactic(auto, unfolding(crate::specs::Library::peer_cells))]
pub fn pawdoku_peers(cell: usize) -> PeerCells
    ensures { result ≡ peer_cells cell }
{
    PeerCells {
        cells: sudoku::peers(cell),
    }
}

// Notes and the grid, which need no board.
ghost use Rattle.std.specs.Prelude.{◌≡◌};
ghost use Rattle.sudoku.specs.Grid.{cell_of, box_index, is_peer_of};
ghost use Rattle.note.specs.Note.{contains, len_of, is_empty};
ghost use Rattle.pawdoku.specs.Library.{digits_in, peer_cells};

use pawdoku::{Digits, PeerCells};

#[unsafe(no_mangle)]
pub extern "C" fn pawdoku_note_contains(note: u16, digit: u8) -> bool
    ensures { result ≡ contains note digit }
{
    pawdoku::grid::pawdoku_note_contains(note, digit)
}

#[unsafe(no_mangle)]
pub extern "C" fn pawdoku_note_len(note: u16) -> usize
    ensures { result ≡ len_of note }
{
    pawdoku::grid::pawdoku_note_len(note)
}

#[unsafe(no_mangle)]
pub extern "C" fn pawdoku_note_is_empty(note: u16) -> bool
    ensures { result ≡ is_empty note }
{
    pawdoku::grid::pawdoku_note_is_empty(note)
}

#[unsafe(no_mangle)]
pub extern "C" fn pawdoku_note_digits(note: u16) -> Digits
    ensures { result ≡ digits_in note }
{
    pawdoku::grid::pawdoku_note_digits(note)
}

#[unsafe(no_mangle)]
pub extern "C" fn pawdoku_cell_of(row: u8, column: u8) -> usize
    ensures { result ≡ cell_of row column }
{
    pawdoku::grid::pawdoku_cell_of(row, column)
}

#[unsafe(no_mangle)]
pub extern "C" fn pawdoku_band(row: u8) -> u8
    ensures { result ≡ box_index row }
{
    pawdoku::grid::pawdoku_band(row)
}

#[unsafe(no_mangle)]
pub extern "C" fn pawdoku_stack(column: u8) -> u8
    ensures { result ≡ box_index column }
{
    pawdoku::grid::pawdoku_stack(column)
}

#[unsafe(no_mangle)]
pub extern "C" fn pawdoku_is_peer_of(row: u8, column: u8, row2: u8, column2: u8) -> bool
    ensures { result ≡ is_peer_of row column row2 column2 }
{
    pawdoku::grid::pawdoku_is_peer_of(row, column, row2, column2)
}

#[unsafe(no_mangle)]
pub extern "C" fn pawdoku_peers(cell: usize) -> PeerCells
    ensures { result ≡ peer_cells cell }
{
    pawdoku::grid::pawdoku_peers(cell)
}

// The grid (sudoku.rs): positions, cells, bands and stacks, and the peers of a cell.
#![tactic(auto)]

ghost use Rattle.std.specs.Prelude.{◌≡◌, ◌≤◌};
ghost use Rattle.sudoku.specs.Grid.{in_range, on_grid, cell_of, is_cell, row_of, column_of, box_index, is_peer_of, peers_of};

mod table;

// The side of a box: three cells across and three down.
pub const BOX_SIDE: u8 = 3;
// The side of the grid: nine cells to a row, a column and a box, and the digits run from 1 to this.
pub const SIDE: u8 = BOX_SIDE * BOX_SIDE;
// The side of the grid as a length.
pub const LINE: usize = 9;
// Cells count from 1 to this, row by row.
pub const CELLS: usize = LINE * LINE;
// As many cells share a row, a column or a box with a cell.
pub const PEERS_PER_CELL: usize = 20;

// Whether a digit, a row or a column is 1 to 9.
#[tactic(auto, unfolding(crate::specs::Grid::in_range, crate::specs::Tests::both))]
pub fn in_range(digit: u8) -> bool
    ensures { result ≡ in_range digit }
{
    1 <= digit && digit <= SIDE
}

// Whether the grid has a cell at this row and column.
#[tactic(auto, unfolding(crate::specs::Grid::on_grid, crate::specs::Tests::both))]
pub fn on_grid(row: u8, column: u8) -> bool
    ensures { result ≡ on_grid row column }
{
    in_range(row) && in_range(column)
}

// Whether the grid has a cell of this number.
#[tactic(auto, unfolding(crate::specs::Grid::is_cell, crate::specs::Tests::both))]
fn is_cell(cell: usize) -> bool
    ensures { result ≡ is_cell cell }
{
    1 <= cell && cell <= CELLS
}

// The cell at a position, and 0 off the grid.
pub fn cell_of(row: u8, column: u8) -> usize
    ensures { (result ≡ cell_of row column) × (result ≤ 81) }
{
    if on_grid(row, column) {
        LINE * (usize::from(row) - 1) + usize::from(column)
    } else {
        0
    }
}

// The row of a cell.
#[tactic(auto, unfolding(crate::specs::Grid::row_of))]
pub fn row_of(cell: usize) -> usize
    ensures { result ≡ row_of cell }
{
    cell.saturating_sub(1) / LINE + 1
}

// The column of a cell, at most 9.
#[tactic(auto, unfolding(crate::specs::Grid::column_of))]
pub fn column_of(cell: usize) -> usize
    ensures { (result ≡ column_of cell) × (result ≤ 9) }
{
    cell.saturating_sub(1) % LINE + 1
}

// Which band a row is in, or which stack a column is, for every byte: the byte less one does not go below 0.
#[tactic(auto, unfolding(crate::specs::Grid::box_index))]
pub fn box_index(line: u8) -> u8
    ensures { result ≡ box_index line }
{
    line.saturating_sub(1) / BOX_SIDE + 1
}

// The band of a row, counted from the top. Bands and stacks are the field's two words, and C has a call for each.
pub fn band(row: u8) -> u8
    ensures { result ≡ box_index row }
{
    box_index(row)
}

// The stack of a column, counted from the left.
pub fn stack(column: u8) -> u8
    ensures { result ≡ box_index column }
{
    box_index(column)
}

// Whether two positions share a row, a column or a box and are not the same. The row is asked first, since bands and
// stacks are divisions.
#[tactic(auto, unfolding(crate::specs::Grid::is_peer_of, crate::specs::Tests::both, crate::specs::Tests::either))]
pub fn is_peer_of(row: u8, column: u8, row2: u8, column2: u8) -> bool
    ensures { result ≡ is_peer_of row column row2 column2 }
{
    if row == row2 {
        return column != column2;
    }
    column == column2 || band(row) == band(row2) && stack(column) == stack(column2)
}

// The twenty peers of a cell, ascending; twenty zeros where there is no such cell.
#[tactic(auto, unfolding(crate::specs::Grid::is_cell, crate::specs::Tests::both))]
pub fn peers(cell: usize) -> [u8; 20]
    ensures { result ≡ peers_of cell }
{
    if is_cell(cell) {
        table::PEERS[cell - 1]
    } else {
        [0; PEERS_PER_CELL]
    }
}

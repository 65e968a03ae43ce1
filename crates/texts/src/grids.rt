// Puzzles and solutions as text: 81 cells row by row, 1 to 9 for a digit, a full stop or 0 for an empty cell.
// White space is passed over.
ghost use Rattle.std.specs.Prelude.{◌≡◌, ◌≤◌, Ok, Err, MatchResult};
ghost use Rattle.texts.specs.Grids.{is_space, so_far, with_cell, cells_of, judged, grid_of};

use crate::CellsError;
use puzzle::text::value_of;
use std::cmp::Ordering;
use sudoku::CELLS;

// Blank, tab, line end and the like.
#[tactic(auto, unfolding(crate::specs::Grids::is_space, sudoku::specs::Tests::both, sudoku::specs::Tests::either))]
fn is_space(byte: u8) -> bool
    ensures { result ≡ is_space byte }
{
    matches!(byte, b' ' | b'\t'..=b'\r')
}

// A cell more behind some. 81 are kept, and beyond them only that there are more; answers how many there are, and 82
// for any number above 81, since all that is asked of it then is that they are too many. The cells stand in an array
// with their count beside it, since `cells` answers 81 however many there are, and needs no heap.
#[tactic(auto, unfolding(crate::specs::Grids::with_cell, sudoku::specs::Tests::pick))]
fn put(cells: &mut [u8; 81], count: usize, value: u8) -> usize
    ensures { (so_far cells.new result ≡ with_cell (so_far cells.old count) value) × (result ≤ 82) }
{
    if count < CELLS {
        cells[count] = value;
        return count + 1;
    }
    CELLS + 1
}

// The cells of a text as far as it has cells: the first 81 of those before its first wrong character; and whether they
// are 81, and all of it.
#[tactic(auto, using(crate::proofs::Grid::are_cells, crate::proofs::Grid::is_few, crate::proofs::Grid::is_all, crate::proofs::Grid::is_many))]
fn read(text: &[u8]) -> ([u8; 81], Result<(), CellsError>)
    ensures cells { result.0 ≡ (cells_of text.now).cells }
    ensures whole { MatchResult result.1 (λ _. Ok result.0 ≡ judged (cells_of text.now)) (λ e. Err e ≡ judged (cells_of text.now)) }
{
    let mut cells = [0u8; 81];
    let mut count: usize = 0;
    for (i, byte) in text.iter().enumerate() {
        if is_space(*byte) {
            continue;
        }
        let Some(value) = value_of(*byte) else {
            let character = i + 1;
            return (cells, Err(CellsError::Wrong { character, count }));
        };
        count = put(&mut cells, count, value);
    }
    match count.cmp(&CELLS) {
        Ordering::Less => (cells, Err(CellsError::Few { count })),
        Ordering::Equal => (cells, Ok(())),
        Ordering::Greater => (cells, Err(CellsError::Many)),
    }
}

// The 81 cells of a text.
#[tactic(auto, unfolding(crate::specs::Grids::grid_of))]
pub fn grid(text: &[u8]) -> Result<[u8; 81], CellsError>
    ensures { result ≡ grid_of text.now }
{
    let (cells, whole) = read(text);
    whole?;
    Ok(cells)
}

// The cells of a text as far as it has cells, and blanks behind them.
pub fn cells(text: &[u8]) -> [u8; 81]
    ensures { result ≡ (cells_of text.now).cells }
{
    read(text).0
}

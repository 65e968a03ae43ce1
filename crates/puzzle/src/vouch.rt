// `WellPosed::vouch` of the original (sudoku/proof.rs), the reference for opening: its errors are
// numbers 22 to 27, and 19 before them. The rows are handed over by value.
ghost use Rattle.std.specs.Prelude.{◌≡◌, ℕ, ◌≤◌, ◌<◌, List, get_or, IfSome};
ghost use Rattle.std.specs.Option.{unwrap_or};
ghost use Rattle.sudoku.specs.Tests.{every};
ghost use Rattle.sudoku.specs.Grid.{in_range, at};
ghost use Rattle.puzzle.specs.Refusals.{first_refused, told};
ghost use Rattle.puzzle.specs.Errors.{well_posed_refusal};
ghost use Rattle.puzzle.specs.Code.GivenBytes.{givens_in};
ghost use Rattle.puzzle.specs.Code.Rows.{row_at, rows_of, flat as flat_of};
ghost use Rattle.puzzle.specs.Vouch.{solution_digit, first_holding, solution_conflict, given_matches, givens_match, vouch as vouch_of, well_posed};

use crate::error::WellPosedError;
use crate::given_bytes::GivenBytes;
use crate::{Given, byte_at, index_of, is_consistent, is_full};
use sudoku::{CELLS, LINE, SIDE, in_range, on_grid, peers};

// The nine digits of the solution's row r, counted from 0.
fn row_at(solution: &[u8], r: usize) -> [u8; 9]
    requires { r < 9 }
    ensures { result ≡ row_at solution.now r }
{
    std::array::from_fn(|i| byte_at(solution, LINE * r + i))
}

// The solution read from its bytes: nine rows of nine, which every test and the fresh board are handed.
// Bytes past the end read as 0, so a solution that is too short is not full.
pub fn rows_of(solution: &[u8]) -> [[u8; 9]; 9]
    ensures { result ≡ rows_of solution.now }
{
    let mut rows = [[0u8; 9]; 9];
    for r in 0..LINE {
        rows[r] = row_at(solution, r); // row_at is called below 9 alone, which a closure would have to ask
    }
    rows
}

// The 81 digits of nine rows, row by row.
pub fn flat(rows: [[u8; 9]; 9]) -> [u8; 81]
    ensures { result ≡ flat_of rows }
{
    std::array::from_fn(|i| rows[i / LINE][i % LINE])
}

// 23 and 24 of what the solution holds at a cell. The rows would be copied at each cell, so their digit is handed over.
fn solution_digit(digit: u8, cell: usize) -> Result<(), WellPosedError>
    ensures { (solution : List ℕ) → at solution cell ≡ digit
        → told well_posed_refusal result ≡ solution_digit solution cell }
{
    if digit == 0 {
        return Err(WellPosedError::SolutionNotFull { cell });
    }
    if digit > SIDE {
        return Err(WellPosedError::SolutionDigitOutOfRange { cell });
    }
    Ok(())
}

// 23 and 24 over the cells in grid order. A loop with `?`: `try_for_each` would ask for a closure over the nine rows
// and say no more; so too in the two walks below that answer a refusal.
fn first_unfilled(rows: [[u8; 9]; 9]) -> Result<(), WellPosedError>
    ensures { told well_posed_refusal result ≡ first_refused (solution_digit (flat_of rows)) 81 1 }
{
    for at in 0..CELLS {
        solution_digit(rows[at / LINE][at % LINE], at + 1)?;
    }
    Ok(())
}

// Whether every cell holds a digit 1 to 9. The loop has no early exit, so that it tests many at once.
fn all_digits(rows: [[u8; 9]; 9]) -> bool
    ensures { result ≡ every (λ cell. in_range (at (flat_of rows) cell)) 81 1 }
{
    let mut ok = true;
    for at in 0..CELLS {
        ok &= in_range(rows[at / LINE][at % LINE]);
    }
    ok
}

// 23 and 24: the first cell of the solution, in grid order, that is empty or holds something out of range. The
// solution is tested as a whole first; the walk is slower, and is made only where it has something to name.
pub fn filled(rows: [[u8; 9]; 9]) -> Result<(), WellPosedError>
    ensures { told well_posed_refusal result ≡ first_refused (solution_digit (flat_of rows)) 81 1 }
{
    if all_digits(rows) {
        return Ok(());
    }
    first_unfilled(rows)
}

// The first of the cells that holds the digit. A function that
// reads one digit would be handed a copy of the rows at every turn.
// With `find` the proof did not close: its closure must be told that each cell lies on the grid.
fn first_holding(rows: [[u8; 9]; 9], digit: u8, cells: [u8; 20]) -> Option<u8>
    requires { (i : ℕ) → i < 20 → (1 ≤ get_or cells i 0) × (get_or cells i 0 ≤ 81) }
    ensures first { unwrap_or result 0 ≡ first_holding (flat_of rows) digit cells }
    ensures cell { IfSome result (λ found. 1 ≤ found) }
{
    for cell in cells {
        let at = index_of(usize::from(cell));
        if rows[at / LINE][at % LINE] == digit {
            return Some(cell);
        }
    }
    None
}

// 25 at one cell of the solution, with the first peer equal to it.
fn conflict_at(rows: [[u8; 9]; 9], cell: usize) -> Result<(), WellPosedError>
    requires { (1 ≤ cell) × (cell ≤ 81) }
    ensures { told well_posed_refusal result ≡ solution_conflict (flat_of rows) cell }
{
    let at = cell - 1;
    match first_holding(rows, rows[at / LINE][at % LINE], peers(cell)) {
        Some(peer) => Err(WellPosedError::SolutionConflict { cell, peer }),
        None => Ok(()),
    }
}

// 25 over the cells in grid order.
fn first_conflict(rows: [[u8; 9]; 9]) -> Result<(), WellPosedError>
    ensures { told well_posed_refusal result ≡ first_refused (solution_conflict (flat_of rows)) 81 1 }
{
    for cell in 1..=CELLS {
        conflict_at(rows, cell)?;
    }
    Ok(())
}

// 25: whether two peers of the solution hold one digit; the first such pair in grid order. The walk over the rows is
// slow, and is made only where it has something to name: whether it has, a test of the whole grid says, over a copy
// laid out flat as a board's digits are.
pub fn consistent(rows: [[u8; 9]; 9]) -> Result<(), WellPosedError>
    ensures { told well_posed_refusal result ≡ first_refused (solution_conflict (flat_of rows)) 81 1 }
{
    let digits = flat(rows);
    if is_full(&digits) && is_consistent(&digits) {
        return Ok(());
    }
    first_conflict(rows)
}

// 26 and 27 of one given with its index from 1.
fn given_matches(rows: [[u8; 9]; 9], g: Given, index: usize) -> Result<(), WellPosedError>
    ensures { told well_posed_refusal result ≡ given_matches (flat_of rows) g index }
{
    if !on_grid(g.row, g.column) {
        return Err(WellPosedError::GivenOffGrid { index });
    }
    let r = usize::from(g.row) - 1; // counted from 0
    let c = usize::from(g.column) - 1;
    if rows[r][c] != g.digit {
        return Err(WellPosedError::GivenMismatch { index });
    }
    Ok(())
}

impl<'a> GivenBytes<'a> {
    // 26 and 27: the first given that is off the grid or whose digit is not the solution's there.
    pub fn match_rows(self, rows: [[u8; 9]; 9]) -> Result<(), WellPosedError>
        ensures { told well_posed_refusal result
            ≡ givens_match (flat_of rows) (givens_in self.entry.layout self.entry.bytes.now self.entry.count) 1 }
    {
        for i in 0..self.count {
            given_matches(rows, self.given(i), i + 1)?;
        }
        Ok(())
    }

    // Whether the givens and the solution are a puzzle, but for the order of the givens.
    pub fn vouch(self, rows: [[u8; 9]; 9]) -> Result<(), WellPosedError>
        ensures { told well_posed_refusal result
            ≡ vouch_of (givens_in self.entry.layout self.entry.bytes.now self.entry.count) (flat_of rows) }
    {
        if self.count >= CELLS {
            return Err(WellPosedError::NothingLeftToPlay);
        }
        filled(rows)?;
        consistent(rows)?;
        self.match_rows(rows)
    }

    // Whether the givens and the solution are a puzzle.
    pub fn well_posed(self, rows: [[u8; 9]; 9]) -> Result<(), WellPosedError>
        ensures { told well_posed_refusal result
            ≡ well_posed (givens_in self.entry.layout self.entry.bytes.now self.entry.count) (flat_of rows) }
    {
        if !self.is_ascending() {
            return Err(WellPosedError::NotAscending);
        }
        self.vouch(rows)
    }
}

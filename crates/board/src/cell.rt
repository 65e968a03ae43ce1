// What a cell's parts say together (board/cell.rs of the original).
// Any number is a cell here: where the grid has none, nothing stands. The two lists come apart from their board: a
// whole board would ask more of a caller who has no more than these.
ghost use Rattle.std.specs.Prelude.{◌≡◌, not};
ghost use Rattle.sudoku.specs.Tests.{both};
ghost use Rattle.puzzle.specs.Givens.{is_given};
ghost use Rattle.puzzle.specs.Puzzle.{holds_digit};

use journal::slots::is_given;
use puzzle::holds_digit;

// Whether the cell holds a digit that the player put there: a digit in a cell that is no given.
#[tactic(auto, unfolding(sudoku::specs::Tests::both))]
pub fn holds_players_digit(digits: &[u8; 81], given: &[u8; 81], cell: usize) -> bool
    ensures { result ≡ both (holds_digit digits.now cell) (not (is_given given.now cell)) }
{
    holds_digit(digits, cell) && !is_given(given, cell)
}

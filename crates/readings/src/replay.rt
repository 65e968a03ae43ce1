// The board as it stood after slots 1 to k: its givens and empty notes, and then each
// slot applied as recorded. A place strikes the peers in its mask and no others.
ghost use Rattle.std.specs.Prelude.{◌≡◌};
ghost use Rattle.puzzle.specs.Givens.{is_given};
ghost use Rattle.sudoku.specs.Tests.{pick, listed};
ghost use Rattle.sudoku.specs.Grid.{at};
ghost use Rattle.readings.specs.Reading.{opening_board, board_after};

use board::Board;
use journal::slots::{is_given, slot_at};
use puzzle::digit_at;
use undo::perform_again;

// The digit of a cell that is a given; 0 for any other.
#[tactic(auto, unfolding(sudoku::specs::Tests::pick))]
fn given_digit(digits: &[u8; 81], given: &[u8; 81], cell: usize) -> u8
    ensures { result ≡ pick (is_given given.now cell) (at digits.now cell) 0 }
{
    if is_given(given, cell) {
        digit_at(digits, cell)
    } else {
        0
    }
}

// The digits of the givens alone.
fn given_digits(digits: &[u8; 81], given: &[u8; 81]) -> [u8; 81]
    ensures { result ≡ listed (λ cell. pick (is_given given.now cell) (at digits.now cell) 0) 81 1 }
{
    std::array::from_fn(|i| given_digit(digits, given, i + 1))
}

// The board's givens and empty notes.
#[tactic(auto, unfolding(crate::specs::Reading::opening_board, crate::specs::Reading::opening_of, board::specs::Board::counts_of, board::specs::Board::board_of, board::specs::Board::moved))]
fn opening(board: Board) -> Board
    ensures { result ≡ opening_board board }
{
    let mut start = board;
    start.digits = given_digits(&board.digits, &board.given);
    start.notes = [0u16; 81];
    start.solved = 0;
    start
}

// The board after slots 1 to k.
pub fn after(board: Board, journal: &[u8], k: usize) -> Board
    ensures { result ≡ board_after board journal.now k }
{
    let mut stood = opening(board);
    for n in 1..=k {
        perform_again(&mut stood, slot_at(journal, n));
    }
    stood
}

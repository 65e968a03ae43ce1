// The check: whether the digit at a cell is the solution's, stored with the count of moves that stood.
ghost use Rattle.std.specs.Prelude.{◌≡◌};
ghost use Rattle.sudoku.specs.Tests.{first};
ghost use Rattle.board.specs.Errors.{number_told};
ghost use Rattle.play.specs.Check.{check_tests, check_of};

use board::cell::holds_players_digit;
use board::error::PlayError;
use board::value::lent;
use board::{Board, Checked};
use journal::checks::store_check;
use journal::{Asked, CHECK_MEMORY, MAX_CHECKS};
use puzzle::answer::accepted;
use puzzle::digit_at;
use sudoku::{cell_of, on_grid};

// 1 2 3 4 6 16.
#[tactic(auto, unfolding(sudoku::specs::Tests::first, sudoku::specs::Tests::pick, board::specs::Board::lent_tests, board::specs::Board::state_of, journal::specs::State::holds_players_digit, crate::specs::Check::check_tests))]
fn check_test(board: Board, checks: &[u8], row: u8, column: u8) -> Result<(), PlayError>
    ensures { number_told result ≡ first (check_tests board checks.now row column) }
{
    lent(board, checks.len() == CHECK_MEMORY)?;
    if !on_grid(row, column) {
        return Err(PlayError::NoSuchCell);
    }
    if board.solved != 0 {
        return Err(PlayError::Solved);
    }
    if !holds_players_digit(&board.digits, &board.given, cell_of(row, column)) {
        return Err(PlayError::NoPlayersDigit);
    }
    if board.checks == MAX_CHECKS {
        return Err(PlayError::ChecksFull);
    }
    Ok(())
}

// Asks whether the digit at a cell is the solution's, and stores the check behind the others. Refused by 1 2 3 4 6 16.
pub fn check(board: Board, checks: &mut [u8], row: u8, column: u8) -> Checked
    ensures { (result ≡ (check_of board checks.old row column).answer) × (checks.new ≡ (check_of board checks.old row column).checks) }
{
    let mut answer = Checked {
        refusal: accepted(),
        right: false,
        board,
    };
    if let Err(e) = check_test(board, checks, row, column) {
        answer.refusal = e.into();
        return answer;
    }
    let asked = Asked {
        standing: board.standing,
        row,
        column,
        digit: digit_at(&answer.board.digits, cell_of(row, column)),
    };
    answer.right = store_check(checks, board.checks, &answer.board.solution, asked);
    answer.board.checks = board.checks + 1;
    answer
}

// Opening a board: number 1 of what is lent, then 19 and 22 to 27, then the
// fresh board. The lent memory is zero afterwards, but after 1 it stays.
ghost use Rattle.std.specs.Prelude.{◌≡◌, eqb, length};
ghost use Rattle.sudoku.specs.Tests.{both};
ghost use Rattle.puzzle.specs.Refusals.{refusal as refusal_of};
ghost use Rattle.puzzle.specs.Givens.{triples};
ghost use Rattle.puzzle.specs.Code.GivenBytes.{givens_in};
ghost use Rattle.puzzle.specs.Code.Rows.{flat as flat_of};
ghost use Rattle.journal.specs.Limits.{journal_bytes, check_memory};
ghost use Rattle.board.specs.Board.{fresh as fresh_of, zero_board};
ghost use Rattle.board.specs.Open.{answer, posed, open_of, Gives};

use crate::error::PlayError;
use crate::{Answer, Board};
use journal::{CHECK_MEMORY, JOURNAL_BYTES};
use puzzle::Layout;
use puzzle::answer::accepted;
use puzzle::given_bytes::GivenBytes;
use puzzle::vouch::{flat, rows_of};
use sudoku::CELLS;

// The board that a refused opening hands back: every field 0, unsolved.
#[tactic(auto, unfolding(crate::specs::Board::zero_board))]
pub fn zero_board() -> Board
    ensures { result ≡ zero_board }
{
    Board {
        digits: [0u8; 81],
        given: [0u8; 81],
        notes: [0u16; 81],
        solution: [0u8; 81],
        solved: 0,
        made: 0,
        standing: 0,
        checks: 0,
    }
}

impl Board {
    // The fresh board of givens and their solution: no notes, no moves, no checks.
    #[tactic(auto, unfolding(crate::specs::Board::fresh, crate::specs::Board::board_of, journal::specs::State::opening))]
    pub fn fresh(givens: GivenBytes, rows: [[u8; 9]; 9]) -> Board
        ensures { result ≡ fresh_of (givens_in givens.entry.layout givens.entry.bytes.now givens.entry.count) (flat_of rows) }
    {
        let digits = givens.digits();
        let given = givens.flags();
        let solution = flat(rows);
        Board {
            digits,
            given,
            notes: [0u16; 81],
            solution,
            solved: 0,
            made: 0,
            standing: 0,
            checks: 0,
        }
    }
}

// Number 1 does not speak of these lengths of solution, journal and check memory.
#[tactic(auto, unfolding(sudoku::specs::Tests::both))]
pub fn lent_lengths(solution: usize, journal: usize, checks: usize) -> bool
    ensures { result ≡ both (eqb journal journal_bytes) (both (eqb checks check_memory) (eqb solution 81)) }
{
    journal == JOURNAL_BYTES && checks == CHECK_MEMORY && solution == CELLS
}

// The answer to number 1. A struct and no Result: C gets it as it is.
pub fn wrong_length() -> Answer
    ensures { result ≡ answer (refusal_of 1 0 0) zero_board }
{
    Answer {
        refusal: PlayError::WrongLength.into(),
        board: zero_board(),
    }
}

// The fresh board where the puzzle is well posed; the memory is zero by then.
fn opened(givens: &[u8], solution: &[u8]) -> Answer
    requires { length solution.now ≡ 81 }
    ensures { result ≡ posed (triples givens.now) solution.now }
{
    let givens = GivenBytes {
        bytes: givens,
        layout: Layout::Triples,
        count: givens.len() / 3,
    };
    let rows = rows_of(solution);
    match givens.well_posed(rows) {
        Ok(()) => Answer {
            refusal: accepted(),
            board: Board::fresh(givens, rows),
        },
        Err(e) => Answer {
            refusal: e.into(),
            board: zero_board(),
        },
    }
}

// Opens a board of givens, three bytes each, and their solution.
#[tactic(auto, using(crate::proofs::Opening::right_lent, crate::proofs::Opening::solution_length), unfolding(crate::specs::Open::open_of, crate::specs::Open::wrong_length, crate::specs::Open::lent_lengths, sudoku::specs::Tests::both, sudoku::specs::Tests::pick))]
pub fn open(givens: &[u8], solution: &[u8], journal: &mut [u8], checks: &mut [u8]) -> Answer
    ensures { Gives (open_of givens.now solution.now journal.old checks.old) result journal.new checks.new }
{
    if !lent_lengths(solution.len(), journal.len(), checks.len()) || givens.len() % 3 != 0 {
        return wrong_length();
    }
    journal.fill(0);
    checks.fill(0);
    opened(givens, solution)
}

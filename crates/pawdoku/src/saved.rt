// Opening, and the record: written, and reopened.
ghost use Rattle.std.specs.Prelude.{◌≡◌};
ghost use Rattle.board.specs.Open.{open_of};
ghost use Rattle.record.specs.Write.{write_of};
ghost use Rattle.record.specs.Reopen.{reopen_of};

use board::{Answer, Board};
use record::Written;

pub fn pawdoku_open(givens: &[u8], solution: &[u8], journal: &mut [u8], checks: &mut [u8]) -> Answer
    ensures value { result ≡ (open_of givens.now solution.now journal.old checks.old).answer }
    ensures journal_after { journal.new ≡ (open_of givens.now solution.now journal.old checks.old).journal }
    ensures checks_after { checks.new ≡ (open_of givens.now solution.now journal.old checks.old).checks }
{
    board::open::open(givens, solution, journal, checks)
}

pub fn pawdoku_reopen(
    bytes: &[u8],
    solution: &[u8],
    journal: &mut [u8],
    checks: &mut [u8],
) -> Answer
    ensures value { result ≡ (reopen_of bytes.now solution.now journal.old checks.old).answer }
    ensures journal_after { journal.new ≡ (reopen_of bytes.now solution.now journal.old checks.old).journal }
    ensures checks_after { checks.new ≡ (reopen_of bytes.now solution.now journal.old checks.old).checks }
{
    reopen::reopen(bytes, solution, journal, checks)
}

pub fn pawdoku_write(board: Board, journal: &[u8], checks: &[u8], output: &mut [u8]) -> Written
    ensures value { result ≡ (write_of board journal.now checks.now output.old).answer }
    ensures output_after { output.new ≡ (write_of board journal.now checks.now output.old).output }
{
    record::write::write(board, journal, checks, output)
}

// An encoded list of calls, run: each call in its turn, on the board and memory that the last one left.
// A list is a chain of the calls that a host makes, each handed what the last returned: undo, redo and check by the
// functions of crate pawdoku, a move by the function that its four hand it to (docs/DECISIONS.md, 31).
ghost use Rattle.std.specs.Prelude.{◌≡◌};
ghost use Rattle.puzzle.specs.Refusals.{accepted as accepted_of};
ghost use Rattle.calls.specs.Encoded.{session, ran, run_of};

use board::{Answer, Board};

// Runs an encoded list of calls, and writes each call's answer. The list itself is never refused.
#[unsafe(no_mangle)]
pub extern "C" fn pawdoku_play(
    board: Board,
    journal: &mut [u8],
    checks: &mut [u8],
    calls: &[u8],
    answers: &mut [u8],
) -> Answer
    ensures refusal_value { result.refusal ≡ accepted_of }
    ensures answers_after { ran (session result.board journal.new checks.new) answers.new ≡ run_of (session board journal.old checks.old) calls.now answers.old }
{
    pawdoku::list::pawdoku_play(board, journal, checks, calls, answers)
}

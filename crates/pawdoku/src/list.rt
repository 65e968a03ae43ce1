// An encoded list of calls, run: each call in its turn, on the board and memory that the last one left.
// A list is a chain of the calls that a host makes, each handed what the last returned: undo, redo and check by the
// functions of crate pawdoku, a move by the function that its three hand it to (docs/DECISIONS.md, 31).
ghost use Rattle.std.specs.Prelude.{◌≡◌, false as no, ◌/◌, ◌<◌, length};
ghost use Rattle.puzzle.specs.Refusals.{accepted as accepted_of};
ghost use Rattle.calls.specs.Encoded.{call_bytes, said, decode_at, answer_bytes, session, ran, run_one, run_of};

use crate::played::{pawdoku_check, pawdoku_redo, pawdoku_undo};
use board::{Answer, Board, Checked};
use calls::encoded::{decode, groups};
use calls::{CALL_BYTES, Call, NO_CALL};
use puzzle::answer::{accepted, refusal};
use puzzle::{Refusal, byte_at};

// What group i of four bytes encodes.
#[tactic(auto, unfolding(calls::specs::Encoded::decode_at))]
fn decode_at(calls: &[u8], i: usize) -> Option<Call>
    requires { i < length calls.now / call_bytes }
    ensures { result ≡ decode_at calls.now i }
{
    let start = CALL_BYTES * i;
    let kind = byte_at(calls, start);
    let row = byte_at(calls, start + 1);
    let column = byte_at(calls, start + 2);
    decode(kind, row, column, byte_at(calls, start + 3))
}

// An answer as four bytes.
#[tactic(auto, unfolding(sudoku::specs::Tests::bit, calls::specs::Encoded::answer_bytes, journal::specs::Bytes::low, journal::specs::Bytes::second))]
fn encoded(r: Refusal, right: bool) -> [u8; CALL_BYTES]
    ensures { result ≡ answer_bytes (said r right) }
{
    let [low, second, ..] = r.place.to_le_bytes();
    [r.number, low, second, u8::from(right)]
}

// The answer of a call that is no check, written with the verdict false; the board that the call leaves is handed on.
fn answered(given: Answer, answer: &mut [u8; CALL_BYTES]) -> Board
    ensures { (result ≡ given.board) × (answer.new ≡ answer_bytes (said given.refusal no)) }
{
    *answer = encoded(given.refusal, false);
    given.board
}

// One group: its call run, and answered; bytes that encode no call are answered by 255 and change nothing. The answer
// is written where it is returned: handed on as one struct for all calls, a list of 392 took a fifth longer.
#[tactic(auto, unfolding(calls::specs::Encoded::run_one, calls::specs::Session::call_of, calls::specs::Session::called))]
fn one_call(
    board: Board,
    journal: &mut [u8],
    checks: &mut [u8],
    asked: Option<Call>,
    answer: &mut [u8; CALL_BYTES],
) -> Board
    ensures left { session result journal.new checks.new ≡ (run_one (session board journal.old checks.old) asked).left }
    ensures answer_after { answer.new ≡ answer_bytes (run_one (session board journal.old checks.old) asked).said }
{
    match asked {
        Some(Call::Make(p)) => answered(play::moves::play(board, journal, p), answer),
        Some(Call::Undo) => answered(pawdoku_undo(board, journal), answer),
        Some(Call::Redo) => answered(pawdoku_redo(board, journal), answer),
        Some(Call::Check { row, column }) => {
            let found = pawdoku_check(board, checks, row, column);
            *answer = encoded(found.refusal, found.right);
            found.board
        }
        None => {
            *answer = encoded(refusal(NO_CALL, 0, 0), false);
            board
        }
    }
}

// Runs an encoded list of calls, and writes each call's answer. The list itself is never refused.
pub fn pawdoku_play(
    board: Board,
    journal: &mut [u8],
    checks: &mut [u8],
    calls: &[u8],
    answers: &mut [u8],
) -> Answer
    ensures refusal_value { result.refusal ≡ accepted_of }
    ensures answers_after { ran (session result.board journal.new checks.new) answers.new ≡ run_of (session board journal.old checks.old) calls.now answers.old }
{
    let end = groups(calls.len(), answers.len());
    let mut left = board;
    // by index: nothing is known of what a chain over parts that are written leaves
    for i in 0..end {
        let mut answer = [0u8; CALL_BYTES];
        left = one_call(left, journal, checks, decode_at(calls, i), &mut answer);
        let start = CALL_BYTES * i;
        answers[start..start + CALL_BYTES].copy_from_slice(&answer);
    }
    Answer {
        refusal: accepted(),
        board: left,
    }
}

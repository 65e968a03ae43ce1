// What a record that reopens tells: its puzzle, every move, every check, and the board that it leaves.
use board::Board;
use files::Memory;
use journal::checks::{check_at, verdict_at};
use journal::slots::slot_at;
use journal::{CHECK_MEMORY, JOURNAL_BYTES, MAX_CHECKS};
use print::deeds::{made, verdict};
use print::drawing::position;
use print::words::explain;
use print::{Count, show};
use readings::read::reading;
use readings::replay::after;

// The givens alone, as the board stood before the first move.
fn puzzle(board: Board, journal: &[u8; JOURNAL_BYTES]) {
    let fresh = after(board, journal, 0);
    show("the puzzle\n");
    position(&fresh.digits, &fresh.given, &fresh.notes, false);
}

// Every move that was made, with what it displaced and whether it is undone.
fn moves_made(board: Board, journal: &[u8; JOURNAL_BYTES]) {
    let n = board.made;
    let moves = Count {
        n,
        one: " move was made, ",
        more: " moves were made, ",
    };
    let standing = Count {
        n: board.standing,
        one: " stands\n",
        more: " stand\n",
    };
    show(format_args!("{moves}{standing}"));
    for k in 1..=n {
        made(k, slot_at(journal, k), board.standing < k);
    }
}

// Every check that is stored.
fn checks_stored(n: usize, checks: &[u8; CHECK_MEMORY]) {
    let asked = Count {
        n,
        one: " check was made\n",
        more: " checks were made\n",
    };
    show(asked);
    for i in 1..=n.min(MAX_CHECKS) {
        // the verdict is a byte of lent memory, which may hold any; of a record that reopened it is 0 or 1
        let right = verdict_at(checks, i) == 1;
        show(format_args!("check {i}: "));
        verdict(check_at(checks, i), right);
    }
}

// The board that the record leaves, and whether it is solved.
fn final_board(board: Board) {
    show("the final board\n");
    position(&board.digits, &board.given, &board.notes, false);
    show(if board.solved != 0 {
        "solved\n"
    } else {
        "not solved\n"
    });
}

// The whole record.
pub fn whole(board: Board, memory: &Memory) {
    puzzle(board, &memory.journal);
    moves_made(board, &memory.journal);
    checks_stored(board.checks, &memory.checks);
    final_board(board);
}

// The reading of move k: what it did, and the board as it stood after it.
pub fn one_move(board: Board, memory: &Memory, k: usize) {
    let r = reading(board, &memory.journal, k);
    if let Err(refused) = r.refusal.outcome() {
        show("there is no reading of that move: ");
        return explain(refused);
    }
    made(k, slot_at(&memory.journal, k), r.undone);
    show("the board after it\n");
    position(&r.digits, &board.given, &r.notes, false);
}

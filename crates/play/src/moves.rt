// The four moves: which of them a call makes, what each one does to the board, what it displaces, and how it is
// recorded.
ghost use Rattle.std.specs.Prelude.{◌*◌, ◌≡◌};
ghost use Rattle.journal.specs.Kinds.{kind_byte};
ghost use Rattle.journal.specs.State.{put_digit, perform as perform_of};
ghost use Rattle.journal.specs.Counts.{recorded};
ghost use Rattle.journal.specs.Limits.{slot_bytes};
ghost use Rattle.journal.specs.Code.Laid.{laid};
ghost use Rattle.journal.specs.Slots.{slot_for, plain_slot, bytes_of};
ghost use Rattle.board.specs.Board.{state_of, counts_of, moved};
ghost use Rattle.play.specs.Play.{move_for, play_of};

use crate::Play;
use crate::tests::call_test;
use board::{Answer, Board};
use journal::notes::{Strike, Write, change_in, holders, note_at, strike_all_in};
use journal::slots::write_slot;
use journal::{Move, MoveKind, Slot};
use note::contains;
use puzzle::answer::accepted;
use puzzle::{digit_at, put_at, settled};
use sudoku::{cell_of, peers};

// A digit put into a cell, which settles the status; 0 empties the cell, which settles nothing.
#[tactic(auto, unfolding(board::specs::Board::state_of, board::specs::Board::counts_of, board::specs::Board::board_of, board::specs::Board::moved, journal::specs::State::put_digit, sudoku::specs::Grid::put, sudoku::specs::Tests::pick))]
pub fn put(board: &mut Board, cell: usize, digit: u8)
    ensures { board.new ≡ moved board.old (put_digit (state_of board.old) cell digit) (counts_of board.old) }
{
    put_at(&mut board.digits, cell, digit);
    if digit != 0 {
        board.solved = settled(&board.digits, board.solved);
    }
}

// What a move does to the board. A place strikes the mark from each
// peer of its cell that has it; the cell's own note stays.
#[tactic(auto, unfolding(board::specs::Board::state_of, board::specs::Board::counts_of, board::specs::Board::board_of, board::specs::Board::moved, journal::specs::State::perform, journal::specs::State::put_digit, journal::specs::State::with_notes))]
pub fn perform(board: &mut Board, m: Move)
    ensures { board.new ≡ moved board.old (perform_of (state_of board.old) m) (counts_of board.old) }
{
    match m {
        Move::Place { row, column, digit } => {
            let cell = cell_of(row, column);
            put(board, cell, digit);
            strike_all_in(&mut board.notes, digit, peers(cell));
        }
        Move::Erase { row, column } => put(board, cell_of(row, column), 0),
        Move::WriteMark { row, column, digit } => {
            change_in::<Write>(&mut board.notes, cell_of(row, column), digit);
        }
        Move::StrikeMark { row, column, digit } => {
            change_in::<Strike>(&mut board.notes, cell_of(row, column), digit);
        }
    }
}

// The slot of a move that strikes no mark.
#[tactic(auto, unfolding(journal::specs::Kinds::kind_byte))]
fn plain_slot(kind: MoveKind, row: u8, column: u8, digit: u8, before: u8) -> Slot
    ensures { result ≡ plain_slot (kind_byte kind) row column digit before }
{
    Slot {
        kind: kind.into(),
        row,
        column,
        digit,
        before,
        struck: 0,
    }
}

// The slot of a move with what it displaces: the digit before, and the peers that lose the mark.
#[tactic(auto, unfolding(board::specs::Board::state_of, journal::specs::Kinds::kind_byte, journal::specs::State::kind_of, journal::specs::State::row_in, journal::specs::State::column_in, journal::specs::State::digit_in, journal::specs::State::before, journal::specs::State::struck, journal::specs::State::digit_at, journal::specs::Slots::slot_for, journal::specs::Slots::plain_slot))]
pub fn slot_of(board: &Board, m: Move) -> Slot
    ensures { result ≡ slot_for (state_of board.now) m }
{
    match m {
        Move::Place { row, column, digit } => {
            let cell = cell_of(row, column);
            let before = digit_at(&board.digits, cell);
            Slot {
                struck: holders(&board.notes, digit, peers(cell)),
                ..plain_slot(MoveKind::Place, row, column, digit, before)
            }
        }
        Move::Erase { row, column } => {
            let before = digit_at(&board.digits, cell_of(row, column));
            plain_slot(MoveKind::Erase, row, column, 0, before)
        }
        Move::WriteMark { row, column, digit } => plain_slot(
            MoveKind::WriteMark,
            row,
            column,
            digit,
            0,
        ),
        Move::StrikeMark { row, column, digit } => plain_slot(
            MoveKind::StrikeMark,
            row,
            column,
            digit,
            0,
        ),
    }
}

// A move recorded in its slot, performed and counted, on a board in place. Reopening makes its moves so, one after
// the other; nothing is asked.
#[tactic(auto, unfolding(board::specs::Board::state_of, board::specs::Board::counts_of, board::specs::Board::board_of, board::specs::Board::moved))]
pub fn make(board: &mut Board, journal: &mut [u8], m: Move)
    ensures { (board.new ≡ moved board.old (perform_of (state_of board.old) m) (recorded (counts_of board.old))) × (journal.new ≡ laid journal.old (slot_bytes * board.old.standing) (bytes_of (slot_for (state_of board.old) m))) }
{
    write_slot(journal, board.standing, slot_of(board, m));
    perform(board, m);
    let mut counts = board.counts();
    counts.record();
    board.set_counts(counts);
}

// The move that a call makes on this board: the pencil strikes a mark that is present and writes one that is absent.
#[tactic(auto, unfolding(crate::specs::Play::move_for, board::specs::Board::state_of, journal::specs::State::note_at, sudoku::specs::Tests::pick))]
fn move_for(board: &Board, p: Play) -> Move
    ensures { result ≡ move_for (state_of board.now) p }
{
    match p {
        Play::Place { row, column, digit } => Move::Place { row, column, digit },
        Play::Erase { row, column } => Move::Erase { row, column },
        Play::Pencil { row, column, digit } => {
            if contains(note_at(&board.notes, cell_of(row, column)), digit) {
                Move::StrikeMark { row, column, digit }
            } else {
                Move::WriteMark { row, column, digit }
            }
        }
    }
}

// A call that makes a move. Refused by its own numbers, 3 to 9, and by 1 2 15.
pub fn play(board: Board, journal: &mut [u8], p: Play) -> Answer
    ensures { (result ≡ (play_of board journal.old p).answer) × (journal.new ≡ (play_of board journal.old p).journal) }
{
    let mut answer = Answer {
        refusal: accepted(),
        board,
    };
    if let Err(e) = call_test(board, &answer.board, journal, p) {
        answer.refusal = e.into();
        return answer;
    }
    let m = move_for(&answer.board, p);
    make(&mut answer.board, journal, m);
    answer
}

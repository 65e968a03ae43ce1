// The play calls, one at a time.
ghost use Rattle.std.specs.Prelude.{◌≡◌};
ghost use Rattle.play.specs.Play.{place_of, erase_of, pencil_of, undo_of, redo_of};
ghost use Rattle.play.specs.Check.{check_of};

use board::{Answer, Board, Checked};

#[unsafe(no_mangle)]
pub extern "C" fn pawdoku_place(
    board: Board,
    journal: &mut [u8],
    row: u8,
    column: u8,
    digit: u8,
) -> Answer
    ensures value { result ≡ (place_of board journal.old row column digit).answer }
    ensures journal_after { journal.new ≡ (place_of board journal.old row column digit).journal }
{
    pawdoku::played::pawdoku_place(board, journal, row, column, digit)
}

#[unsafe(no_mangle)]
pub extern "C" fn pawdoku_erase(board: Board, journal: &mut [u8], row: u8, column: u8) -> Answer
    ensures value { result ≡ (erase_of board journal.old row column).answer }
    ensures journal_after { journal.new ≡ (erase_of board journal.old row column).journal }
{
    pawdoku::played::pawdoku_erase(board, journal, row, column)
}

#[unsafe(no_mangle)]
pub extern "C" fn pawdoku_pencil(
    board: Board,
    journal: &mut [u8],
    row: u8,
    column: u8,
    digit: u8,
) -> Answer
    ensures value { result ≡ (pencil_of board journal.old row column digit).answer }
    ensures journal_after { journal.new ≡ (pencil_of board journal.old row column digit).journal }
{
    pawdoku::played::pawdoku_pencil(board, journal, row, column, digit)
}

#[unsafe(no_mangle)]
pub extern "C" fn pawdoku_undo(board: Board, journal: &[u8]) -> Answer
    ensures { result ≡ undo_of board journal.now }
{
    pawdoku::played::pawdoku_undo(board, journal)
}

#[unsafe(no_mangle)]
pub extern "C" fn pawdoku_redo(board: Board, journal: &[u8]) -> Answer
    ensures { result ≡ redo_of board journal.now }
{
    pawdoku::played::pawdoku_redo(board, journal)
}

#[unsafe(no_mangle)]
pub extern "C" fn pawdoku_check(board: Board, checks: &mut [u8], row: u8, column: u8) -> Checked
    ensures value { result ≡ (check_of board checks.old row column).answer }
    ensures checks_after { checks.new ≡ (check_of board checks.old row column).checks }
{
    pawdoku::played::pawdoku_check(board, checks, row, column)
}

// Play (board.rs, board/check.rs and board/error.rs of the original): place, erase, the pencil in place of
// the two mark calls, check, and the latest and next move. Undo and redo stand in crate undo.
// A call gets the board by value and hands it back in its answer; a
// refused call hands it back as it came, and touches no lent byte.
#![tactic(auto)]

pub mod checks;
pub mod moves;
pub mod numbers;
pub mod shown;
pub mod sound;
pub mod tests;

// What place, erase and pencil ask for. Apart from `Move`, since the board decides which move a call becomes, while a
// slot and a record say which it was.
#[derive(Clone, Copy, PartialEq, Eq)]
pub enum Play {
    Place { row: u8, column: u8, digit: u8 },
    Erase { row: u8, column: u8 },
    Pencil { row: u8, column: u8, digit: u8 },
}

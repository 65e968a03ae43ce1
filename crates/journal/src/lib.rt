// The journal (board/journal.rs of the original): the four moves,
// what each one displaces, slots of eight bytes, and the two counts.
#![tactic(auto)]

ghost use Rattle.std.specs.Prelude.{◌≡◌};
ghost use Rattle.journal.specs.Kinds.{kind_at, kind_byte};

pub mod checks;
mod lent;
pub mod notes;
pub mod slots;
pub mod steps;

// The kind bytes: of a given, the four moves, the count of undone moves, and
// a check. Moves have theirs in slots and in records, the others in records.
// They are bytes of the format, which MoveKind and the items of a record are written by.
pub const GIVEN: u8 = 1;

pub const PLACE: u8 = 2;

pub const ERASE: u8 = 3;

pub const WRITE_MARK: u8 = 4;

pub const STRIKE_MARK: u8 = 5;

pub const UNDONE: u8 = 6;

pub const CHECK: u8 = 7;

// Moves that a journal holds.
pub const MAX_MOVES: usize = 1024;
// Checks that the check memory holds.
pub const MAX_CHECKS: usize = 256;
// Bytes of a slot, and of a stored check.
pub const SLOT_BYTES: usize = 8;

pub const CHECK_BYTES: usize = 6;
// Bytes of journal memory and of check memory.
pub const JOURNAL_BYTES: usize = SLOT_BYTES * MAX_MOVES;

pub const CHECK_MEMORY: usize = CHECK_BYTES * MAX_CHECKS;

// The kinds of the four moves.
#[derive(Clone, Copy, PartialEq, Eq)]
pub enum MoveKind {
    Place,
    Erase,
    WriteMark,
    StrikeMark,
}

// A byte that is the kind of no move.
#[derive(Clone, Copy, PartialEq, Eq)]
pub struct NoMove;

impl From<MoveKind> for u8 {
    ghost from_gives = { λ kind byte. byte ≡ kind_byte kind };

    #[tactic(auto, unfolding(crate::specs::Kinds::kind_byte))]
    fn from(kind: MoveKind) -> u8 {
        match kind {
            MoveKind::Place => PLACE,
            MoveKind::Erase => ERASE,
            MoveKind::WriteMark => WRITE_MARK,
            MoveKind::StrikeMark => STRIKE_MARK,
        }
    }
}

impl TryFrom<u8> for MoveKind {
    type Error = NoMove;

    ghost try_from_gives = { λ byte kind. kind ≡ kind_at byte };

    #[tactic(auto, unfolding(crate::specs::Kinds::kind_at, sudoku::specs::Tests::pick))]
    fn try_from(byte: u8) -> Result<MoveKind, NoMove> {
        match byte {
            PLACE => Ok(MoveKind::Place),
            ERASE => Ok(MoveKind::Erase),
            WRITE_MARK => Ok(MoveKind::WriteMark),
            STRIKE_MARK => Ok(MoveKind::StrikeMark),
            _ => Err(NoMove),
        }
    }
}

// The four moves.
#[derive(Clone, Copy, PartialEq, Eq)]
pub enum Move {
    Place { row: u8, column: u8, digit: u8 },
    Erase { row: u8, column: u8 },
    WriteMark { row: u8, column: u8, digit: u8 },
    StrikeMark { row: u8, column: u8, digit: u8 },
}

// A slot, read: the move's four bytes, the digit before, and the mask
// of the peers that lost the mark, bit i for peer i of the target.
// The kind stays a byte: lent memory may hold any, and whether a slot is sound is asked of that byte.
#[derive(Clone, Copy, PartialEq, Eq)]
pub struct Slot {
    pub kind: u8,
    pub row: u8,
    pub column: u8,
    pub digit: u8,
    pub before: u8,
    pub struck: u32,
}

// A check as it is asked: how many moves stand, the cell, and the digit that is asked about.
#[derive(Clone, Copy, PartialEq, Eq)]
pub struct Asked {
    pub standing: usize,
    pub row: u8,
    pub column: u8,
    pub digit: u8,
}

// What a move does to the digit of its cell: the digit that stood before
// and the one that stands after, 0 for an empty cell.
#[derive(Clone, Copy, PartialEq, Eq)]
pub struct DigitChange {
    pub before: u8,
    pub after: u8,
}

// The journal's two counts.
#[derive(Clone, Copy, PartialEq, Eq)]
pub struct Counts {
    pub made: usize,
    pub standing: usize,
}

// Play calls, and lists of them as bytes.
#![tactic(auto)]

use play::Play;

pub mod encoded;

// Bytes of an encoded call, and of its answer.
pub const CALL_BYTES: usize = 4;
// An encoded call's first byte: which call it is. Numbers, since the C header names them; `decode` makes a `Call` of
// them. They start at 16, apart from every kind of move: a call is no move, and a list of kinds encodes no call.
pub const CALL_PLACE: u8 = 16;

pub const CALL_ERASE: u8 = 17;

pub const CALL_PENCIL: u8 = 18;

pub const CALL_UNDO: u8 = 19;

pub const CALL_REDO: u8 = 20;

pub const CALL_CHECK: u8 = 21;
// The number that answers bytes that encode no call.
pub const NO_CALL: u8 = 255;

// A play call.
#[derive(Clone, Copy, PartialEq, Eq)]
pub enum Call {
    Make(Play),
    Undo,
    Redo,
    Check { row: u8, column: u8 },
}

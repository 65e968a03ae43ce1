// Files of the console and the referee, and the words of their command line. A file is read whole and opened as a
// puzzle or a record, and one takes another's place only once it is written. No contract can say what a file holds;
// each function says on standard output what went wrong.
#![tactic(auto)]

ghost use Rattle.std.specs.Prelude.{◌≡◌};
ghost use Rattle.files.specs.Memory.{fresh_memory};

use journal::{CHECK_MEMORY, JOURNAL_BYTES};

pub mod arguments;
pub mod disk;
pub mod load;

// The memory that is lent to a board: its journal and its checks.
#[derive(Clone, Copy)]
pub struct Memory {
    pub journal: [u8; JOURNAL_BYTES],
    pub checks: [u8; CHECK_MEMORY],
}

impl Memory {
    #[tactic(auto, unfolding(board::specs::Open::no_moves, board::specs::Open::no_checks))]
    pub fn new() -> Memory
        ensures { result ≡ fresh_memory }
    {
        Memory {
            journal: [0u8; JOURNAL_BYTES],
            checks: [0u8; CHECK_MEMORY],
        }
    }
}

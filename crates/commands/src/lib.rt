// The commands of the console: each is one call of the library, and what it answers is shown.
#![tactic(auto)]

use board::Board;
use files::Memory;

pub mod perform;

// What is played: the board, and the memory that is lent to its calls; and whether it is shown in colours.
#[derive(Clone, Copy)]
pub struct Game {
    pub board: Board,
    pub memory: Memory,
    pub coloured: bool,
}

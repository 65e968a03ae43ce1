// Texts that the console and the referee read: the cells of a puzzle or a solution, and the commands of a player. All
// of it is functions of bytes, with their contracts.
#![tactic(auto)]

pub mod commands;
pub mod grids;

// Why a text is not 81 cells: its first character, counted from 1, that is neither a cell nor white space, with how
// many cells come before it (82 where there are more than 81); or that it has more cells, or how many it has. No code
// reads the count of a wrong one: it is what the definition `cells_of` has found by then, and the contracts say it.
#[derive(Clone, Copy, PartialEq, Eq)]
pub enum CellsError {
    Wrong { character: usize, count: usize },
    Many,
    Few { count: usize },
}

// The commands of a player, and what stands for one where a line has no word, or one that is no command: of a word of
// one letter that letter, and none of a longer word, or of the byte 0, which is no letter. These two are variants, and
// no Option stands around the others: the definition of a line's command has a letter for each, so each line has one.
#[derive(Clone, Copy, PartialEq, Eq)]
pub enum Verb {
    Place,
    Erase,
    Mark,
    Undo,
    Redo,
    Check,
    Latest,
    Next,
    Move,
    Left,
    Board,
    Save,
    Open,
    Puzzle,
    Line,
    Help,
    Quit,
    NoWord,
    Unknown(Option<u8>),
}

// The words that follow a command. None wants more than three; of four or more the first three are kept, since a line
// taken apart says which they are.
#[derive(Clone, Copy)]
pub enum Words<'a> {
    Zero,
    One(&'a [u8]),
    Two(&'a [u8], &'a [u8]),
    Three(&'a [u8], &'a [u8], &'a [u8]),
    More(&'a [u8], &'a [u8], &'a [u8]),
}

// A line taken apart: its command, and the words that follow.
#[derive(Clone, Copy)]
pub struct Command<'a> {
    pub verb: Verb,
    pub words: Words<'a>,
}

// A puzzle and its solution, or a record, from files; or a mailed line with the line of its solution. The board that is
// being played stays until another one is open.
ghost use Rattle.std.specs.Prelude.{◌≡◌, ◌<◌, IfSome, length};
ghost use Rattle.board.specs.Open.{open_of, Gives};
ghost use Rattle.lines.specs.Lines.{digits_bytes};
ghost use Rattle.files.specs.Load.{is_record, open_bytes, is_openable, left, takes_place, load_bytes, name_of, FileLoaded, FilesLoaded, open_line, load_line};

use crate::Memory;
use crate::disk::{FILE_BYTES, read, read_cells, whole_cells};
use board::open::open;
use board::{Answer, Board};
use lines::{GIVENS_ROOM, givens_in, line_digits};
use print::show;
use print::words::{explain, explain_line};
use puzzle::byte_at;
use reopen::reopen;
use std::rt::Files;
use texts::grids::cells;

// A record's first byte is the kind of its first item, 1 to 7; a text never starts so.
#[tactic(auto, unfolding(crate::specs::Load::is_record, sudoku::specs::Tests::both))]
fn is_record(bytes: &[u8]) -> bool
    ensures { result ≡ is_record bytes.now }
{
    matches!(byte_at(bytes, 0), 1..=7)
}

// Whether a file is a record, or a text of 81 cells.
#[tactic(auto, using(crate::proofs::Whole::some_is_whole), unfolding(crate::specs::Load::is_openable, sudoku::specs::Tests::either))]
fn is_openable(path: &[u8], bytes: &[u8]) -> bool
    ensures { result ≡ is_openable bytes.now }
{
    is_record(bytes) || whole_cells(path, bytes).is_some()
}

// The name of a solution's file where one is named; an empty name is none, since no file has it.
#[tactic(auto, using(std::proofs::lemmas::List::nil_from_length), unfolding(crate::specs::Load::name_of))]
fn named(solution: Option<&[u8]>) -> Option<&[u8]>
    ensures same { name_of result ≡ name_of solution.entry }
    ensures named { IfSome result (λ name. 0 < length name.now) }
{
    solution.filter(|name| !name.is_empty())
}

impl Memory {
    // Reopens a record, or opens a puzzle. A puzzle's text is taken as far as it has cells.
    #[tactic(auto, unfolding(crate::specs::Load::open_bytes, sudoku::specs::Tests::pick))]
    pub fn open_bytes(&mut self, bytes: &[u8], right: &[u8; 81]) -> Answer
        ensures { Gives (open_bytes bytes.now right.now self.old.journal self.old.checks) result self.new.journal self.new.checks }
    {
        if is_record(bytes) {
            return reopen(bytes, right, &mut self.journal, &mut self.checks);
        }
        self.open_puzzle(&cells(bytes), right)
    }

    // Opens a puzzle whose digits are the givens.
    fn open_puzzle(&mut self, digits: &[u8; 81], right: &[u8; 81]) -> Answer
        ensures { Gives (open_of (digits_bytes digits.now) right.now self.old.journal self.old.checks) result self.new.journal self.new.checks }
    {
        let mut room = [0u8; GIVENS_ROOM];
        let givens = givens_in(digits, &mut room);
        open(givens, right, &mut self.journal, &mut self.checks)
    }

    // What was opened in memory apart takes the place of this memory, where all went well.
    #[tactic(auto, unfolding(crate::specs::Load::takes_place, crate::specs::Load::stays, puzzle::specs::Refusals::outcome, puzzle::specs::Refusals::is_accepted, sudoku::specs::Tests::pick))]
    fn take_up(&mut self, answer: Answer, own: &Memory) -> Option<Board>
        ensures { left result self.new.journal self.new.checks ≡ takes_place (record { answer = answer; journal = own.now.journal; checks = own.now.checks }) self.old.journal self.old.checks }
    {
        if let Err(refused) = answer.refusal.outcome() {
            explain(refused);
            return None;
        }
        *self = *own;
        Some(answer.board)
    }

    // What the bytes of a file open, with a solution.
    #[tactic(auto, unfolding(crate::specs::Load::load_bytes, crate::specs::Load::stays, sudoku::specs::Tests::pick))]
    fn load_bytes(&mut self, path: &[u8], bytes: &[u8], right: &[u8; 81]) -> Option<Board>
        ensures { left result self.new.journal self.new.checks ≡ load_bytes bytes.now right.now self.old.journal self.old.checks }
    {
        if !is_openable(path, bytes) {
            return None;
        }
        let mut own = Memory::new();
        let answer = own.open_bytes(bytes, right);
        self.take_up(answer, &own)
    }

    // What a file holds, with a solution.
    fn load_with<R: Files>(&mut self, rt: &R, path: &[u8], right: &[u8; 81]) -> Option<Board>
        ensures { FileLoaded right.now self.old.journal self.old.checks (left result self.new.journal self.new.checks) }
    {
        let mut file = [0u8; FILE_BYTES];
        let bytes = read(rt, path, &mut file)?;
        self.load_bytes(path, bytes, right)
    }

    // A record or a puzzle with the solution of a second file, or with the one at hand where no second file is named.
    pub fn load<R: Files>(
        &mut self,
        rt: &R,
        path: &[u8],
        solution: Option<&[u8]>,
        at_hand: &[u8; 81],
    ) -> Option<Board>
        ensures { FilesLoaded (name_of solution.entry) at_hand.now self.old.journal self.old.checks (left result self.new.journal self.new.checks) }
    {
        match named(solution) {
            None => self.load_with(rt, path, at_hand),
            Some(solution) => {
                let right = read_cells(rt, solution)?;
                self.load_with(rt, path, &right)
            }
        }
    }

    // Opens a mailed line with a solution.
    fn open_line(&mut self, line: &[u8], right: &[u8; 81]) -> Option<Board>
        ensures { left result self.new.journal self.new.checks ≡ open_line line.now right.now self.old.journal self.old.checks }
    {
        match line_digits(line) {
            Ok(digits) => {
                let mut own = Memory::new();
                let answer = own.open_puzzle(&digits, right);
                self.take_up(answer, &own)
            }
            Err(error) => {
                explain_line(error.into(), line);
                None
            }
        }
    }

    // A mailed line with the line of its solution, both taken strictly. A blank in the solution is a cell without a
    // digit, which opening refuses.
    #[tactic(auto, using(crate::proofs::Loading::solution_read))]
    pub fn load_line(&mut self, line: &[u8], solution: &[u8]) -> Option<Board>
        ensures { left result self.new.journal self.new.checks ≡ load_line line.now solution.now self.old.journal self.old.checks }
    {
        match line_digits(solution) {
            Ok(right) => self.open_line(line, &right),
            Err(error) => {
                show("the solution's line is ");
                explain_line(error.into(), solution);
                None
            }
        }
    }
}

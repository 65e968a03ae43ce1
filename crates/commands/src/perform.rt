// What each command does: one call of the library, and what it answers shown.
ghost use Rattle.std.specs.Prelude.{◌≡◌, [], option_map, unwrap_or};
ghost use Rattle.calls.specs.declared.Call.TheVariants.{Make};
ghost use Rattle.sudoku.specs.Tests.{pick};
ghost use Rattle.calls.specs.Encoded.{run_one};
ghost use Rattle.texts.specs.declared.Verb.TheVariants.{Open};
ghost use Rattle.texts.specs.Commands.{number_of, request};
ghost use Rattle.files.specs.Load.{name_of};
ghost use Rattle.commands.specs.Perform.{narrowed, numbers_of, named_move, undo_call, check_call, played, Opens, puzzle_leaves, Performs};

use crate::Game;
use board::{Answer, Board};
use files::disk::save;
use journal::Asked;
use journal::slots::slot_at;
use lines::{LINE_BYTES, write_line};
use play::Play;
use play::checks::check;
use play::moves::play;
use play::shown::{Latest, Next, Turn, slot_shown};
use print::deeds::{made, verdict};
use print::drawing::{keys, position, whole};
use print::words::explain;
use print::{Printable, say, show};
use puzzle::digit_at;
use readings::read::reading;
use record::RECORD_BYTES;
use record::write::write;
use std::rt::Files;
use sudoku::cell_of;
use texts::commands::number;
use texts::{Command, Verb, Words};
use undo::{redo, undo};

// What a command wants, as a whole line: it is written at once.
fn wants(verb: Verb) -> &'static str {
    match verb {
        Verb::Place => "place wants a row, a column and a digit, as in: place 1 3 4\n",
        Verb::Mark => "mark wants a row, a column and a digit, as in: mark 1 3 4\n",
        Verb::Erase => "erase wants a row and a column, as in: erase 1 3\n",
        Verb::Check => "check wants a row and a column, as in: check 1 3\n",
        Verb::Move => "move wants the number of a move, as in: move 1\n",
        Verb::Save => "save wants the name of a file, without blanks\n",
        Verb::Open => {
            "open wants a record or a puzzle, and may have its solution: names of files without blanks\n"
        }
        Verb::Puzzle => {
            "puzzle wants a line of 81 characters and the 81 digits of its solution, as two words\n"
        }
        _ => "that command stands alone\n",
    }
}

// Says what a command wants.
fn want(verb: Verb) {
    show(wants(verb));
}

fn help() {
    say(
        b"place ROW COLUMN DIGIT   p   put a digit into a cell\n\
erase ROW COLUMN         e   empty a cell\n\
mark ROW COLUMN DIGIT    m   pencil a mark, or strike it where it stands\n\
undo                     u   take back the latest move\n\
redo                     r   make the next undone move again\n\
check ROW COLUMN         c   ask whether your digit is right; that is kept\n\
latest                   l   show the latest standing move\n\
next                     n   show the next move to redo\n\
move K                   k   show move K, and the board as it stood after it\n\
left                     d   show the digits left for each key\n\
board                    b   draw the board again\n\
save FILE                w   write the game to a file\n\
open FILE [SOLUTION]     o   go on with a saved game, or open a puzzle\n\
puzzle LINE SOLUTION     z   open a mailed line; both of exactly 81 characters\n\
line                     i   show the line of this puzzle, to be mailed\n\
help                     h   show this\n\
quit                     q   leave\n\
A puzzle's file may have white space among its 81 cells; a mailed line has none.\n\
[5] is a given, 5 is yours, ! at its corners: the cell clashes.\n\
Digits left: nine less the cells where the digit stands and does not clash.\n\
A digit put into a clash makes its number go up: neither of the two counts.\n\
Marks stand small, each at its own place.\n",
    );
}

// The number of a command that wants one; none where it has not one word, or that is no number.
fn number_of(command: Command<'_>) -> Option<usize> {
    match command.words {
        Words::One(word) => number(word),
        _ => None,
    }
}

// A word's number as a byte; none where it is no number. What is no byte is no row, no column and no digit either, and
// 255 is none of these; not by `as`, which would take 257 for 1.
#[tactic(auto, unfolding(crate::specs::Perform::narrowed, sudoku::specs::Tests::pick))]
fn byte(word: &[u8]) -> Option<u8>
    ensures { result ≡ option_map narrowed (number_of word.now) }
{
    let n = number(word)?;
    Some(u8::try_from(n).unwrap_or(255))
}

// The row and the column of a command that wants these alone; none where it has not two words, or one is no number.
#[tactic(auto, unfolding(crate::specs::Perform::numbers_of, crate::specs::Perform::third_of, crate::specs::Perform::are_numbers, crate::specs::Perform::narrowed, texts::specs::Commands::said, sudoku::specs::Tests::pick))]
fn row_and_column(command: Command<'_>) -> Option<(u8, u8)>
    ensures { option_map (λ n. record { row = n.0; column = n.1; digit = 0 }) result ≡ numbers_of (request command.entry) 2 }
{
    let Words::Two(row, column) = command.words else {
        return None;
    };
    Some((byte(row)?, byte(column)?))
}

// What a command asks to play; none where its words are not those that it wants, or one is no number.
#[tactic(auto, unfolding(crate::specs::Perform::named_move, crate::specs::Perform::move_call, crate::specs::Perform::is_move, crate::specs::Perform::wanted_by, crate::specs::Perform::play_named, crate::specs::Perform::numbers_of, crate::specs::Perform::third_of, crate::specs::Perform::are_numbers, crate::specs::Perform::narrowed, texts::specs::Commands::said, sudoku::specs::Tests::pick))]
fn play_of(command: Command<'_>) -> Option<Play>
    ensures { option_map Make result ≡ named_move (request command.entry) }
{
    match (command.verb, command.words) {
        (Verb::Place, Words::Three(row, column, digit)) => Some(Play::Place {
            row: byte(row)?,
            column: byte(column)?,
            digit: byte(digit)?,
        }),
        (Verb::Mark, Words::Three(row, column, digit)) => Some(Play::Pencil {
            row: byte(row)?,
            column: byte(column)?,
            digit: byte(digit)?,
        }),
        (Verb::Erase, Words::Two(row, column)) => Some(Play::Erase {
            row: byte(row)?,
            column: byte(column)?,
        }),
        _ => None,
    }
}

// The board's own line: its givens, whatever was played.
fn show_line(board: Board) {
    let mut line = [0u8; LINE_BYTES];
    match write_line(board, &mut line).refusal.outcome() {
        Ok(()) => {
            say(&line);
            show("\n");
        }
        Err(refused) => explain(refused),
    }
}

// The methods that `perform` calls take the command whole. Of those that may change the game, make, step, check, open
// and open_line, the contract says what that command leaves of it.
impl Game {
    // The board after a call: drawn, or with the refusal's words.
    fn settle(&mut self, answer: Answer)
        ensures left { played self.new ≡ record (played self.old) { board = answer.board } }
        ensures coloured { self.new.coloured ≡ self.old.coloured }
    {
        self.board = answer.board;
        match answer.refusal.outcome() {
            Ok(()) => whole(self.board, self.coloured),
            Err(refused) => explain(refused),
        }
    }

    // Place, erase or the pencil.
    #[tactic(auto, unfolding(calls::specs::Encoded::run_one, calls::specs::Session::call_of, calls::specs::Session::called))]
    fn make(&mut self, command: Command<'_>)
        ensures left { played self.new ≡ (run_one (played self.old) (named_move (request command.entry))).left }
        ensures coloured { self.new.coloured ≡ self.old.coloured }
    {
        let Some(named) = play_of(command) else {
            want(command.verb);
            return;
        };
        let answer = play(self.board, &mut self.memory.journal, named);
        self.settle(answer);
    }

    // Undo and redo.
    #[tactic(auto, unfolding(crate::specs::Perform::undo_call, crate::specs::Perform::step_named, texts::specs::Commands::said, sudoku::specs::Tests::pick, calls::specs::Encoded::run_one, calls::specs::Session::call_of, calls::specs::Session::called))]
    fn step(&mut self, command: Command<'_>)
        ensures left { played self.new ≡ (run_one (played self.old) (undo_call (request command.entry))).left }
        ensures coloured { self.new.coloured ≡ self.old.coloured }
    {
        let verb = command.verb;
        let Words::Zero = command.words else {
            want(verb);
            return;
        };
        // by the verb again: a call that is handed over would need a clause that says which of the two it is
        let answer = match verb {
            Verb::Undo => undo(self.board, &self.memory.journal),
            _ => redo(self.board, &self.memory.journal),
        };
        self.settle(answer);
    }

    // A check of the player's digit.
    #[tactic(auto, unfolding(crate::specs::Perform::check_call, calls::specs::Encoded::run_one, calls::specs::Session::call_of, calls::specs::Session::called))]
    fn check(&mut self, command: Command<'_>)
        ensures left { played self.new ≡ (run_one (played self.old) (check_call (request command.entry))).left }
        ensures coloured { self.new.coloured ≡ self.old.coloured }
    {
        let Some((row, column)) = row_and_column(command) else {
            want(command.verb);
            return;
        };
        let answer = check(self.board, &mut self.memory.checks, row, column);
        self.board = answer.board;
        if let Err(refused) = answer.refusal.outcome() {
            explain(refused);
            return;
        }
        whole(self.board, self.coloured);
        let asked = Asked {
            standing: self.board.standing,
            row,
            column,
            digit: digit_at(&self.board.digits, cell_of(row, column)),
        };
        verdict(asked, answer.right);
    }

    // The latest standing move or the next to redo, which is move n.
    fn show_slot<T: Turn>(&self, n: usize, undone: bool) {
        match slot_shown::<T>(self.board, &self.memory.journal) {
            Ok(slot) => made(n, slot_at(slot, 1), undone),
            Err(e) => explain(e.into()),
        }
    }

    // The reading of move k.
    fn read_move(&self, command: Command<'_>) {
        let Some(k) = number_of(command) else {
            want(Verb::Move);
            return;
        };
        let r = reading(self.board, &self.memory.journal, k);
        if let Err(refused) = r.refusal.outcome() {
            explain(refused);
            return;
        }
        position(&r.digits, &self.board.given, &r.notes, self.coloured);
        made(k, slot_at(&self.memory.journal, k), r.undone);
    }

    // Saves the game under a name. Kept apart, as `open_line` is: laid into `perform`, what it writes into would take
    // its room on the stack at each command.
    #[inline(never)]
    fn save<R: Files>(&self, rt: &R, command: Command<'_>) {
        let Words::One(path) = command.words else {
            want(Verb::Save);
            return;
        };
        let mut out = [0u8; RECORD_BYTES];
        let written = write(
            self.board,
            &self.memory.journal,
            &self.memory.checks,
            &mut out,
        );
        if let Err(refused) = written.refusal.outcome() {
            explain(refused);
            return;
        }
        let record = out.get(..written.length).unwrap_or(&[]);
        if save(rt, path, record) {
            show(format_args!("saved in {}, {} bytes\n", Printable(path), written.length));
        }
    }

    // The board that was opened, drawn; where none was, the one that is played stays.
    fn take_up(&mut self, loaded: Option<Board>)
        ensures left { played self.new ≡ record (played self.old) { board = unwrap_or loaded self.old.board } }
        ensures coloured { self.new.coloured ≡ self.old.coloured }
    {
        if let Some(board) = loaded {
            self.board = board;
            whole(board, self.coloured);
        }
    }

    // Opens a file, with the solution in another where one is named; else with the solution that is played.
    fn open_files<R: Files>(&mut self, rt: &R, path: &[u8], solution: Option<&[u8]>)
        ensures left { Opens (record { verb = Open; words = 2; first = path.now; second = name_of solution.entry; third = [] }) (played self.old) (played self.new) }
        ensures coloured { self.new.coloured ≡ self.old.coloured }
    {
        let right = &self.board.solution;
        let loaded = self.memory.load(rt, path, solution, right);
        self.take_up(loaded);
    }

    // A file, and another for the solution where a second word names one.
    fn open<R: Files>(&mut self, rt: &R, command: Command<'_>)
        ensures left { Opens (request command.entry) (played self.old) (played self.new) }
        ensures coloured { self.new.coloured ≡ self.old.coloured }
    {
        match command.words {
            Words::One(path) => self.open_files(rt, path, None),
            Words::Two(path, solution) => self.open_files(rt, path, Some(solution)),
            _ => want(Verb::Open),
        }
    }

    // A mailed line and the line of its solution, as two words.
    #[inline(never)]
    #[tactic(auto, unfolding(crate::specs::Perform::puzzle_leaves, crate::specs::Perform::taken_up, texts::specs::Commands::said, sudoku::specs::Tests::pick))]
    fn open_line(&mut self, command: Command<'_>)
        ensures left { played self.new ≡ puzzle_leaves (request command.entry) (played self.old) }
        ensures coloured { self.new.coloured ≡ self.old.coloured }
    {
        let Words::Two(line, solution) = command.words else {
            want(Verb::Puzzle);
            return;
        };
        let loaded = self.memory.load_line(line, solution);
        self.take_up(loaded);
    }

    // The commands that have no words after them, show something and change nothing. The next move is numbered from
    // those that stand, of which a board has far fewer than a number holds.
    fn show_alone(&self, verb: Verb) {
        let standing = self.board.standing;
        match verb {
            Verb::Latest => self.show_slot::<Latest>(standing, false),
            Verb::Next => self.show_slot::<Next>(standing.saturating_add(1), true),
            Verb::Left => keys(&self.board.digits),
            Verb::Board => whole(self.board, self.coloured),
            Verb::Line => show_line(self.board),
            _ => help(),
        }
    }

    // The commands that show something and change nothing. Apart from `perform`, which names those that do more, and
    // from those that stand alone: one match of all would be a long function.
    fn show(&self, command: Command<'_>) {
        match (command.verb, command.words) {
            (Verb::Move, _) => self.read_move(command),
            (Verb::Unknown(_), _) => show("no such command: help lists them\n"),
            (verb, Words::Zero) => self.show_alone(verb),
            (verb, _) => want(verb),
        }
    }
}

// A command performed.
pub fn perform<R: Files>(rt: &R, game: &mut Game, command: Command<'_>)
    ensures performed { Performs (request command.entry) (played game.old) (played game.new) }
    ensures coloured { game.new.coloured ≡ game.old.coloured }
{
    match command.verb {
        Verb::Place | Verb::Mark | Verb::Erase => game.make(command),
        Verb::Undo | Verb::Redo => game.step(command),
        Verb::Check => game.check(command),
        Verb::Open => game.open(rt, command),
        Verb::Puzzle => game.open_line(command),
        Verb::Save => game.save(rt, command),
        Verb::NoWord => {}
        _ => game.show(command),
    }
}

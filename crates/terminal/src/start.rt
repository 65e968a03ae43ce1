// The console from its start to its end.
use crate::arguments::Arguments;
use crate::input::{Input, Line};
use board::Board;
use board::open::zero_board;
use commands::Game;
use commands::perform::perform;
use files::Memory;
use files::arguments::word;
use files::disk::PATH_MAX;
use print::drawing::whole;
use print::{Printable, show};
use std::env::Env;
use std::io::{IsTerminal, Read};
use std::rt::Files;
use texts::commands::taken_apart;
use texts::grids::grid;
use texts::{Command, Verb, Words};

// The solution of the puzzle that is built in. Its text is a grid; were it none, opening would refuse the 81 blanks.
fn built_in_solution() -> [u8; 81] {
    let found = grid(
        b"534678912672195348198342567859761423426853791713924856961537284287419635345286179",
    );
    found.unwrap_or([0u8; 81])
}

// The puzzle that is built in: thirty givens.
fn built_in(memory: &mut Memory) -> Board {
    let answer = memory.open_bytes(
        b"53..7....6..195....98....6.8...6...34..8.3..17...2...6.6....28....419..5....8..79",
        &built_in_solution(),
    );
    answer.board
}

fn is_quit(command: Command<'_>) -> bool {
    matches!((command.verb, command.words), (Verb::Quit, Words::Zero))
}

// What goes from one line to the next. Each part is made where it stays: one that is handed on whole is copied, and
// the copy takes its ten thousand bytes of the stack until the console ends.
#[derive(Clone, Copy)]
struct Console {
    game: Game,
    input: Input,
    echo: bool,
}

impl Console {
    // A line that was read, taken apart and performed; answers whether the game goes on. Kept apart: laid into its
    // callers, what the commands' calls answer would take its room on the stack also while the first board is loaded.
    #[inline(never)]
    fn obey<R: Files>(&mut self, rt: &R, text: &[u8]) -> bool {
        if self.echo {
            show(format_args!("{}\n", Printable(text)));
        }
        let command = taken_apart(text);
        if is_quit(command) {
            return false;
        }
        perform(rt, &mut self.game, command);
        true
    }

    // What came instead of a line, or the line; answers whether the game goes on.
    fn answer<R: Files>(&mut self, rt: &R, got: Option<Line>) -> bool {
        let Some(line) = got else {
            show("\n");
            return false;
        };
        let Some(text) = line.text() else {
            show("that line has more than 256 characters, and is not taken\n");
            return true;
        };
        self.obey(rt, text)
    }

    // Line after line, until the game is left or the input ends: there are more turns than any game uses.
    fn play<R: Files, I: Read>(&mut self, rt: &R, input: &mut I) {
        for _ in 0..u64::MAX {
            show("> ");
            let got = self.input.read_line(input);
            if !self.answer(rt, got) {
                return;
            }
        }
    }
}

// The board to start with, in the memory that is lent: the one that the command line names, or the one that is built
// in. Kept apart: laid into its caller, the two names would take their room on the stack until the console ends.
#[inline(never)]
fn first_board<R: Files + Env>(rt: &R, args: Arguments, memory: &mut Memory) -> Option<Board> {
    let Some(file) = args.file else {
        return Some(built_in(memory));
    };
    let right = built_in_solution();
    let mut path = [0u8; PATH_MAX];
    let path = word(rt, file, &mut path).unwrap_or(&[]);
    let mut solution = [0u8; PATH_MAX];
    let solution = args.solution.and_then(|i| word(rt, i, &mut solution));
    memory.load(rt, path, solution, &right)
}

// The game, where the board to start with opens.
fn begin<R: Files + Env, I: Read + IsTerminal>(
    rt: &R,
    input: &mut I,
    args: Arguments,
    coloured: bool,
) {
    let mut console = Console {
        game: Game {
            board: zero_board(),
            memory: Memory::new(),
            coloured,
        },
        input: Input::new(),
        echo: !input.is_terminal(),
    };
    let Some(board) = first_board(rt, args, &mut console.game.memory) else {
        return;
    };
    console.game.board = board;
    show("pawdoku: type a command, as place 1 3 4, or help\n");
    whole(board, coloured);
    console.play(rt, input);
}

// The console, on an input and an output. They are handed over: the bound `Input` reads a pipe byte by byte, and no
// bound of a runtime says whether a stream is a terminal.
pub fn run<R: Files + Env, I: Read + IsTerminal + Drop, O: IsTerminal + Drop>(
    rt: &R,
    input: I,
    output: O,
) {
    let mut input = input;
    match Arguments::read(rt) {
        Some(args) => begin(rt, &mut input, args, args.colour.is_on(&output)),
        None => show("console [--colour | --plain] [RECORD [SOLUTION] | PUZZLE SOLUTION]\n"),
    }
}

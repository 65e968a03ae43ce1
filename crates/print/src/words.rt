// Every refusal in plain words, here and nowhere else. Numbers, places and inner numbers are the documents': a call
// answers the programs as it answers C (docs/DECISIONS.md, 47).
use crate::{Count, Printable, is_printable, show};
use puzzle::{Refusal, byte_at, index_of};
use std::fmt;
use std::fmt::Display;
use sudoku::{column_of, row_of};

// 1 to 16, 34 and 35: what stands in the way of a call.
fn of_a_call(refused: u8) -> &'static str {
    match refused {
        1 => "what was lent has another length than it must have",
        2 => "the board is none that calls leave",
        3 => "there is no such cell: rows and columns are 1 to 9",
        4 => "the puzzle is solved, and that is final",
        5 => "the cell is a given",
        6 => "the cell holds no digit of yours",
        7 => "the cell holds a digit, and marks go where there is none",
        8 => "the digit is none of 1 to 9",
        9 => "that digit stands there already",
        10 => "that mark is written there already",
        11 => "that mark is not there",
        12 => "there is no move to undo",
        13 => "there is no move to redo",
        15 => "1,024 moves stand, and there is room for no more",
        16 => "256 checks are stored, and there is room for no more",
        34 => "the room for what is to be written is too small",
        35 => "no such move was made",
        _ => "the memory is none that calls leave",
    }
}

// The position of a cell, behind its number.
#[derive(Clone, Copy)]
struct Position(usize);

impl Display for Position {
    fn fmt<W: fmt::Write>(&self, f: &mut fmt::Formatter<W>) -> fmt::Result {
        let row = row_of(self.0);
        let column = column_of(self.0);
        write!(f, " (row {row}, column {column})")
    }
}

// A cell by its number and its position.
#[derive(Clone, Copy)]
struct Cell(usize);

impl Display for Cell {
    fn fmt<W: fmt::Write>(&self, f: &mut fmt::Formatter<W>) -> fmt::Result {
        write!(f, "cell {}{}", self.0, Position(self.0))
    }
}

// 23 to 27: what stands in the way of opening, with the cell or the given that is named.
fn of_a_puzzle<W: fmt::Write>(f: &mut fmt::Formatter<W>, refused: Refusal) -> fmt::Result {
    let Refusal {
        number,
        place,
        inner,
    } = refused;
    let cell = Cell(place);
    match number {
        23 => write!(f, "the solution has no digit at {cell}"),
        24 => write!(
            f,
            "the solution has a digit that is none of 1 to 9 at {cell}"
        ),
        25 => {
            let peer = Cell(usize::from(inner));
            write!(
                f,
                "the solution has the same digit at {cell} and at its peer {peer}"
            )
        }
        26 => write!(f, "given {place} is off the grid"),
        _ => write!(f, "given {place} is not the solution's digit there"),
    }
}

// 17 to 22 and 30: of a record as a whole.
fn of_a_record<W: fmt::Write>(f: &mut fmt::Formatter<W>, refused: Refusal) -> fmt::Result {
    let words = match refused.number {
        17 => {
            let item = refused.place;
            return write!(
                f,
                "the record is malformed: item {item} is missing, is cut short or cannot stand there"
            );
        }
        18 => {
            "the record has more than 1,024 moves or 256 checks, or a check with more than 1,024 moves standing"
        }
        19 => "the givens do not ascend",
        20 => "the record has more moves undone than made",
        21 => "the record has checks and no moves",
        22 => "nothing is left to play: there are 81 givens or more",
        _ => "the record has moves undone after the puzzle was solved",
    };
    f.write_str(words)
}

// 28, 29 and 31 to 33: of a move or a check of a record.
fn of_an_item<W: fmt::Write>(f: &mut fmt::Formatter<W>, refused: Refusal) -> fmt::Result {
    let Refusal {
        number,
        place,
        inner,
    } = refused;
    let why = of_a_call(inner);
    match number {
        28 => write!(f, "move {place} comes after the puzzle was solved"),
        29 => write!(f, "move {place} is refused: {why}"),
        31 => write!(f, "check {place} is refused: {why}"),
        32 => write!(f, "check {place} was asked while no move stood"),
        _ => write!(
            f,
            "check {place} was asked of the right digit in the one cell to play, so the puzzle was solved by then",
        ),
    }
}

// 36 and 37: of a puzzle's line.
fn of_a_line<W: fmt::Write>(f: &mut fmt::Formatter<W>, refused: Refusal) -> fmt::Result {
    if refused.number == 36 {
        return f.write_str("a line has 81 characters, and at most one line feed behind them");
    }
    let place = refused.place;
    let position = Position(place);
    write!(
        f,
        "character {place}{position} is none of 1 to 9, full stop and 0"
    )
}

// What a refusal means.
#[derive(Clone, Copy)]
struct Meaning(Refusal);

impl Display for Meaning {
    fn fmt<W: fmt::Write>(&self, f: &mut fmt::Formatter<W>) -> fmt::Result {
        let refused = self.0;
        match refused.number {
            17..=22 | 30 => of_a_record(f, refused),
            23..=27 => of_a_puzzle(f, refused),
            28..=29 | 31..=33 => of_an_item(f, refused),
            36..=37 => of_a_line(f, refused),
            number => f.write_str(of_a_call(number)),
        }
    }
}

// A refusal's number, its place and inner number where it has them, and what they mean.
#[derive(Clone, Copy)]
struct Explained(Refusal);

impl Display for Explained {
    fn fmt<W: fmt::Write>(&self, f: &mut fmt::Formatter<W>) -> fmt::Result {
        let Refusal {
            number,
            place,
            inner,
        } = self.0;
        write!(f, "refused by {number}")?;
        if place != 0 {
            write!(f, " at {place}")?;
        }
        if inner != 0 {
            write!(f, ", inner {inner}")?;
        }
        let meaning = Meaning(self.0);
        write!(f, ": {meaning}")
    }
}

// A refusal on a line of its own.
pub fn explain(r: Refusal) {
    show(format_args!("{}\n", Explained(r)));
}

// A character that was found, by its byte where it is not printable.
#[derive(Clone, Copy)]
struct Found(u8);

impl Display for Found {
    fn fmt<W: fmt::Write>(&self, f: &mut fmt::Formatter<W>) -> fmt::Result {
        let byte = self.0;
        if is_printable(byte) {
            let character = char::from(byte);
            return write!(f, ": it is {character}");
        }
        write!(f, ": it is byte {byte}")
    }
}

// What of a line was refused: by 36 how many characters came, lest a line that was cut short or has grown be taken for
// a fault of the reader, and by 37 which one is of another sort. By the refusal's number, as every call answers the
// programs: to want the error would ask more of a caller.
#[derive(Clone, Copy)]
struct WhatCame<'a> {
    refused: Refusal,
    line: &'a [u8],
}

impl<'a> Display for WhatCame<'a> {
    fn fmt<W: fmt::Write>(&self, f: &mut fmt::Formatter<W>) -> fmt::Result {
        if self.refused.number == 36 {
            let n = self.line.len();
            let came = Count {
                n,
                one: " byte came",
                more: " bytes came",
            };
            return write!(f, "; {came}");
        }
        let found = Found(byte_at(self.line, index_of(self.refused.place)));
        write!(f, "{found}")
    }
}

// A refusal of a puzzle's line on a line of its own, with what came instead.
pub fn explain_line(r: Refusal, line: &[u8]) {
    show(format_args!("{}{}\n", Explained(r), WhatCame { refused: r, line }));
}

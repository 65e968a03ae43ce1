// Moves and checks, each on a line of its own.
use crate::{Count, show};
use journal::slots::move_of;
use journal::{Asked, Move, Slot};
use std::fmt;
use std::fmt::Display;
use sudoku::{cell_of, column_of, peers, row_of};

#[derive(Clone, Copy)]
struct At {
    row: u8,
    column: u8,
}

impl Display for At {
    fn fmt<W: fmt::Write>(&self, f: &mut fmt::Formatter<W>) -> fmt::Result {
        let At { row, column } = *self;
        write!(f, " at row {row}, column {column}")
    }
}

// The peers of the move's cell that lost the mark. The mask is halved from peer to peer, as the changes of marks do.
#[derive(Clone, Copy)]
struct Struck(Slot);

impl Display for Struck {
    fn fmt<W: fmt::Write>(&self, f: &mut fmt::Formatter<W>) -> fmt::Result {
        let mut mask = self.0.struck;
        for peer in peers(cell_of(self.0.row, self.0.column)) {
            if mask % 2 != 0 {
                let row = row_of(usize::from(peer));
                let column = column_of(usize::from(peer));
                write!(f, " ({row},{column})")?;
            }
            mask /= 2;
        }
        Ok(())
    }
}

// What a move displaced: the digit before, and the marks that its digit struck.
#[derive(Clone, Copy)]
struct Displaced(Slot);

impl Display for Displaced {
    fn fmt<W: fmt::Write>(&self, f: &mut fmt::Formatter<W>) -> fmt::Result {
        let slot = self.0;
        let before = slot.before;
        if before != 0 {
            write!(f, ", in place of {before}")?;
        }
        if slot.struck != 0 {
            let struck = Struck(slot);
            write!(f, ", striking the mark at{struck}")?;
        }
        Ok(())
    }
}

// What a move did: its kind in a word, and the slot's digit where it has one. By the slot and not by the move, since a
// slot that no call leaves may have a digit that its move has not, or none where its move has one.
#[derive(Clone, Copy)]
struct Deed(Slot);

impl Display for Deed {
    fn fmt<W: fmt::Write>(&self, f: &mut fmt::Formatter<W>) -> fmt::Result {
        let digit = self.0.digit;
        f.write_str(match move_of(self.0) {
            Move::Place { .. } => "place ",
            Move::Erase { .. } => "erase",
            Move::WriteMark { .. } => "mark ",
            Move::StrikeMark { .. } => "strike ",
        })?;
        if digit != 0 {
            write!(f, "{digit}")?;
        }
        Ok(())
    }
}

// Move n on a line of its own, with what it displaced and whether it is undone.
pub fn made(n: usize, slot: Slot, undone: bool) {
    let at = At {
        row: slot.row,
        column: slot.column,
    };
    let deed = Deed(slot);
    let displaced = Displaced(slot);
    let undone = if undone { " (undone)" } else { "" };
    show(format_args!("move {n}: {deed}{at}{displaced}{undone}\n"));
}

// A check on a line of its own, with its verdict.
pub fn verdict(asked: Asked, right: bool) {
    let Asked {
        standing,
        row,
        column,
        digit,
    } = asked;
    let at = At { row, column };
    let verdict = if right { " is right" } else { " is wrong" };
    let moves = Count {
        n: standing,
        one: " move stood)\n",
        more: " moves stood)\n",
    };
    show(format_args!("{digit}{at}{verdict} ({moves}"));
}

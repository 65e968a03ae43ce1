// The drawn board, in colours where they are asked for, with the keypad and the counts below.
use crate::{Count, say, show};
use board::Board;
use screen::keys::keypad;
use screen::picture::SIZE;
use screen::{Cells, Colour};

// The escape that turns a colour on, and all others off.
fn escape(colour: Colour) {
    show(match colour {
        Colour::Given => "\x1b[0;1m",
        Colour::Player => "\x1b[0;36m",
        Colour::Clash => "\x1b[0;1;31m",
        Colour::Marks => "\x1b[0;32m",
        Colour::Plain => "\x1b[0m",
    });
}

// A drawn board in its colours: a run of signs in each. A blank shows no colour, so it ends no run. By index, since a
// run has to be one part of the signs, to be written at once.
fn paint(signs: &[u8; SIZE], colours: &[Colour; SIZE]) {
    let mut start = 0;
    for n in 1..SIZE {
        if signs[n] != b' ' && colours[n] != colours[start] {
            escape(colours[start]);
            say(&signs[start..n]);
            start = n;
        }
    }
    escape(colours[start]);
    say(&signs[start..]);
    escape(Colour::Plain);
}

// The drawn board of some digits, givens and notes. A bool says whether it is coloured, here and in `whole`: the same
// signs are written either way, and no other step hangs on it.
pub fn position<'a>(
    digits: &'a [u8; 81],
    given: &'a [u8; 81],
    notes: &'a [u16; 81],
    coloured: bool,
) {
    let cells = Cells { digits, given };
    let signs = cells.picture(notes);
    if coloured {
        paint(&signs, &cells.colours());
    } else {
        say(&signs);
    }
}

// The line of the keypad.
pub fn keys(digits: &[u8; 81]) {
    say(&keypad(digits));
}

// The moves that stand of those made, the checks, and whether the puzzle is solved.
fn counts(board: Board) {
    let standing = board.standing;
    let moves = Count {
        n: board.made,
        one: " move stands, ",
        more: " moves stand, ",
    };
    let checks = Count {
        n: board.checks,
        one: " check",
        more: " checks",
    };
    let solved = if board.solved != 0 { "; solved" } else { "" };
    show(format_args!("{standing} of {moves}{checks}{solved}\n"));
}

// A board whole: drawn, with the keypad and the counts below.
pub fn whole(board: Board, coloured: bool) {
    position(&board.digits, &board.given, &board.notes, coloured);
    keys(&board.digits);
    counts(board);
}

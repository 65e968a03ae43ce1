// The drawn board, character by character.
// What the definitions say is found by opening those that are named here.
#![tactic(auto, using(std::proofs::lemmas::Bool::Decides::nat_tests), unfolding(sudoku::specs::Tests::pick, sudoku::specs::Tests::both, sudoku::specs::Tests::either, crate::specs::Picture::figure, crate::specs::Picture::across, crate::specs::Picture::upright, crate::specs::Picture::column_label, crate::specs::Picture::row_label, crate::specs::Picture::spot_of, crate::specs::Picture::framed, crate::specs::Picture::placed, crate::specs::Picture::is_corner, crate::specs::Picture::bracket_at, crate::specs::Picture::digit_sign, crate::specs::Picture::mark_sign, crate::specs::Picture::cell_sign, crate::specs::Picture::sign_at, crate::specs::Picture::cell_colour, crate::specs::Picture::colour_at))]

ghost use Rattle.std.specs.Prelude.{◌≡◌, ◌<◌, ◌≤◌, ◌/◌, ◌%◌};
ghost use Rattle.screen.specs.Picture.{size, width, figure as figure_of, across as across_at, upright as upright_at, column_label};
ghost use Rattle.screen.specs.Picture.{row_label, spot_of, framed as framed_at, placed as placed_at, is_corner, bracket_at};
ghost use Rattle.screen.specs.Picture.{digit_sign, mark_sign, cell_sign, sign_at, picture_of, cell_colour, colour_at, colours_of};

use crate::{Cells, Colour, Spot};
use journal::notes::note_at;
use journal::slots::is_given;
use puzzle::{conflicts, digit_at, holds_digit};
use sudoku::cell_of;

// Characters to a line, its end with them.
pub const WIDTH: usize = 61;
// Characters of a drawn board: 39 lines.
pub const SIZE: usize = 2379;

// A number from 0 to 9 as a character.
pub fn figure(n: u8) -> u8
    ensures { result ≡ figure_of n }
{
    if n <= 9 { b'0' + n } else { b'?' }
}

// A line across, at line y of the frame.
fn across(y: u8, x: u8) -> u8
    ensures { result ≡ across_at y x }
{
    if x % 18 == 0 {
        b'#'
    } else if x % 6 == 0 {
        b'+'
    } else if y % 12 == 0 {
        b'='
    } else {
        b'-'
    }
}

// A line upright, at column x of the frame.
fn upright(x: u8) -> u8
    ensures { result ≡ upright_at x }
{
    if x % 18 == 0 { b'#' } else { b'|' }
}

// The number of a column, over the middle of its cells.
fn column_label(x: u8) -> u8
    ensures { result ≡ column_label x }
{
    if x != 0 && x % 6 == 0 {
        figure(x / 6)
    } else {
        b' '
    }
}

// The number of a row, left and right of the middle of its cells.
fn row_label(y: u8, x: u8) -> u8
    ensures { result ≡ row_label y x }
{
    if y % 4 == 2 && (x == 1 || x == 59) {
        figure(y / 4 + 1)
    } else {
        b' '
    }
}

// The spot of a cell at its line i, from 1 to 3, and its column j, from 1 to 5.
fn spot_of(i: u8, j: u8) -> u8
    requires { (1 ≤ i) × (i < 4) }
    ensures { result ≡ spot_of i j }
{
    match j {
        2..=4 => 3 * (i - 1) + (j - 1),
        _ => 0,
    }
}

// What line y of the frame shows at column x of it.
fn framed(y: u8, x: u8) -> Spot
    ensures { result ≡ framed_at y x }
{
    if y % 4 == 0 {
        Spot::Frame(across(y, x))
    } else if x % 6 == 0 {
        Spot::Frame(upright(x))
    } else {
        Spot::Inside {
            cell: cell_of(y / 4 + 1, x / 6 + 1),
            spot: spot_of(y % 4, x % 6),
        }
    }
}

// What line y shows at column x.
fn placed(y: u8, x: u8) -> Spot
    ensures { result ≡ placed_at y x }
{
    if x == 60 {
        Spot::Frame(b'\n')
    } else if y == 0 || y == 38 {
        Spot::Frame(column_label(x))
    } else if x < 3 || x > 57 {
        Spot::Frame(row_label(y - 1, x))
    } else {
        framed(y - 1, x - 3)
    }
}

// What character n of the drawn board shows. By `as`: n is below 2379, so neither its line nor its column is above 60,
// and `try_from` would have a case that cannot come.
fn spot_at(n: usize) -> Spot
    requires { n < size }
    ensures { result ≡ placed_at (n / width) (n % width) }
{
    placed((n / WIDTH) as u8, (n % WIDTH) as u8)
}

// The four spots at the corners of a cell.
fn is_corner(spot: u8) -> bool
    ensures { result ≡ is_corner spot }
{
    matches!(spot, 1 | 3 | 7 | 9)
}

// The brackets of a given.
fn bracket(spot: u8) -> u8
    ensures { result ≡ bracket_at spot }
{
    match spot {
        4 => b'[',
        6 => b']',
        _ => b' ',
    }
}

// A spot of a cell that holds a digit.
fn digit_sign(digit: u8, given: bool, clash: bool, spot: u8) -> u8
    ensures { result ≡ digit_sign digit given clash spot }
{
    if spot == 5 {
        figure(digit)
    } else if is_corner(spot) {
        if clash { b'!' } else { b' ' }
    } else if given {
        bracket(spot)
    } else {
        b' '
    }
}

// A spot of a cell that holds no digit.
fn mark_sign(note: u16, spot: u8) -> u8
    ensures { result ≡ mark_sign note spot }
{
    if note::contains(note, spot) {
        figure(spot)
    } else if spot == 0 || note::is_empty(note) {
        b' '
    } else {
        b'.'
    }
}

impl Cells<'_> {
    // A spot of a cell. A note under a digit is kept and not shown.
    fn cell_sign(&self, notes: &[u16; 81], cell: usize, spot: u8) -> u8
        ensures { result ≡ cell_sign self.now.digits.now self.now.given.now notes.now cell spot }
    {
        if holds_digit(self.digits, cell) {
            digit_sign(
                digit_at(self.digits, cell),
                is_given(self.given, cell),
                conflicts(self.digits, cell),
                spot,
            )
        } else {
            mark_sign(note_at(notes, cell), spot)
        }
    }

    // The character of a place of the drawn board.
    fn sign(&self, notes: &[u16; 81], spot: Spot) -> u8
        ensures { result ≡ sign_at self.now.digits.now self.now.given.now notes.now spot }
    {
        match spot {
            Spot::Frame(frame) => frame,
            Spot::Inside { cell, spot } => self.cell_sign(notes, cell, spot),
        }
    }

    // The drawn board.
    pub fn picture(&self, notes: &[u16; 81]) -> [u8; SIZE]
        ensures { result ≡ picture_of self.now.digits.now self.now.given.now notes.now }
    {
        std::array::from_fn(|n| self.sign(notes, spot_at(n)))
    }

    // The colour of a cell.
    fn cell_colour(&self, cell: usize) -> Colour
        ensures { result ≡ cell_colour self.now.digits.now self.now.given.now cell }
    {
        if !holds_digit(self.digits, cell) {
            Colour::Marks
        } else if conflicts(self.digits, cell) {
            Colour::Clash
        } else if is_given(self.given, cell) {
            Colour::Given
        } else {
            Colour::Player
        }
    }

    // The colour of a place of the drawn board.
    fn colour(&self, spot: Spot) -> Colour
        ensures { result ≡ colour_at self.now.digits.now self.now.given.now spot }
    {
        match spot {
            Spot::Frame(_) => Colour::Plain,
            Spot::Inside { cell, .. } => self.cell_colour(cell),
        }
    }

    // The colour of each character of the drawn board.
    pub fn colours(&self) -> [Colour; SIZE]
        ensures { result ≡ colours_of self.now.digits.now self.now.given.now }
    {
        std::array::from_fn(|n| self.colour(spot_at(n)))
    }
}

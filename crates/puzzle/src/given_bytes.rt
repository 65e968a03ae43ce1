// Givens (sudoku.rs of the original): read from bytes in either layout, their order, and the digits of a fresh board.
ghost use Rattle.std.specs.Prelude.{◌≡◌, ℕ};
ghost use Rattle.puzzle.specs.declared.Given.{Given};
ghost use Rattle.puzzle.specs.Givens.{precedes as precedes_to, ascending, digits_of, given_cells};
ghost use Rattle.puzzle.specs.Code.GivenBytes.{given_from, given_in, givens_in, laid_by};

use crate::{Given, Layout, byte_at, bytes_from, put_at};
use sudoku::cell_of;

// The given whose three bytes start at an index; bytes past the end read as 0. Where all three are there they are
// tested once: byte by byte an opening with eighty givens takes a quarter longer.
#[tactic(auto, unfolding(crate::specs::Code::GivenBytes::given_from))]
pub fn given_from(bytes: &[u8], start: usize) -> Given
    ensures { result ≡ given_from bytes.now start }
{
    match bytes_from(bytes, start) {
        [row, column, digit, ..] => Given {
            row: *row,
            column: *column,
            digit: *digit,
        },
        cut => Given {
            row: byte_at(cut, 0),
            column: byte_at(cut, 1),
            digit: byte_at(cut, 2),
        },
    }
}

// Whether g stands strictly before h in the order of row, column, digit: the derived order, which the contract says.
#[tactic(auto, unfolding(crate::specs::Givens::precedes, sudoku::specs::Tests::both, sudoku::specs::Tests::either))]
pub fn precedes(g: Given, h: Given) -> bool
    ensures { result ≡ precedes_to g h }
{
    g < h
}

// Givens as they stand in some bytes: in which layout, and how many, since in a record's bytes the moves follow.
#[derive(Clone, Copy)]
pub struct GivenBytes<'a> {
    pub bytes: &'a [u8],
    pub layout: Layout,
    pub count: usize,
}

impl<'a> GivenBytes<'a> {
    // The given with index i, counted from 0. An index that a `usize` cannot hold is past the end, as the greatest is.
    pub fn given(self, i: usize) -> Given
        ensures { result ≡ given_in self.entry.layout self.entry.bytes.now i }
    {
        let start = match self.layout {
            Layout::Triples => i.saturating_mul(3),
            Layout::Items => i.saturating_mul(4).saturating_add(1),
        };
        given_from(self.bytes, start)
    }

    // Whether the givens ascend strictly.
    pub fn is_ascending(self) -> bool
        ensures { result ≡ ascending (givens_in self.entry.layout self.entry.bytes.now self.entry.count) }
    {
        (1..self.count).all(|i| precedes(self.given(i - 1), self.given(i)))
    }

    // The 81 cells with an entry of each given laid at its cell, in order, over zeros. Givens are read by number, since
    // in a record's bytes each stands behind its kind byte.
    // What is off the grid counts as cell 1; no such given comes this far.
    fn laid<F: Fn(Given) -> u8>(self, entry: F) -> [u8; 81]
        requires { F.IsAlwaysCallable entry }
        ensures { (value : Given → ℕ) → ((g : Given) (x : ℕ) → F.post entry g x → x ≡ value g)
            → result ≡ laid_by value self.entry.layout self.entry.bytes.now self.entry.count }
    {
        let mut cells = [0u8; 81];
        for i in 0..self.count {
            let given = self.given(i);
            put_at(&mut cells, cell_of(given.row, given.column), entry(given));
        }
        cells
    }

    // The digits of a fresh board: each given's digit at its cell, 0 elsewhere.
    pub fn digits(self) -> [u8; 81]
        ensures { result ≡ digits_of (givens_in self.entry.layout self.entry.bytes.now self.entry.count) }
    {
        self.laid(|given| given.digit)
    }

    // Which cells of a fresh board hold a given: 1 there, 0 elsewhere.
    pub fn flags(self) -> [u8; 81]
        ensures { result ≡ given_cells (givens_in self.entry.layout self.entry.bytes.now self.entry.count) }
    {
        self.laid(|_given| 1)
    }
}

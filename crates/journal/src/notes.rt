// What moves do to the kept notes: 81 of them, row by row. Notes change in place. The loops go over cells that the
// caller hands over, so the peers of a cell are asked for once; a cell that the grid does not have changes nothing.
ghost use Rattle.std.specs.Prelude.{◌≡◌, ℕ, Bool, List, not, ◌+◌, ◌*◌, ◌<◌, ◌^◌};
ghost use Rattle.sudoku.specs.Tests.{pick, either, bit};
ghost use Rattle.sudoku.specs.Grid.{at};
ghost use Rattle.note.specs.Note.{contains as contains_of, power_of, with_mark, without};
ghost use Rattle.journal.specs.State.{write_at, strike_at, strike_all, holders as holders_of, lowest, strike_masked, write_masked};
ghost use Rattle.journal.specs.Code.InTurn.{lacks, not_missing, lack_in_turn, none_missing_in_turn};
ghost use Rattle.journal.specs.Code.Marks.{MarkLaws, write_laws, strike_laws};

use note::{contains, power};
use puzzle::{entry_at, put_at};

// The kept note of a cell, and an empty note where there is no such cell.
#[tactic(auto, unfolding(sudoku::specs::Grid::at))]
pub fn note_at(notes: &[u16; 81], cell: usize) -> u16
    ensures { result ≡ at notes.now cell }
{
    entry_at(notes, cell, 0)
}

// A change of one mark. The mark is handed over by its value, and 0 stands for no mark,
// which changes nothing: so no test of a bit is made, and nothing has to foretell it.
pub trait MarkChange {
    // A note after the change, and the test that it must pass before.
    ghost after: { ℕ → ℕ → ℕ };

    ghost fits: { ℕ → ℕ → Bool };

    // Notes after the change at a cell; after it at the cells whose bit is set in a mask, and the test of each in turn.
    ghost at_cell: { List ℕ → ℕ → ℕ → List ℕ };

    ghost masked: { List ℕ → ℕ → ℕ → List ℕ → List ℕ };

    ghost fits_each: { List ℕ → ℕ → ℕ → List ℕ → Bool };

    fn changed(note: u16, mark: u16) -> u16
        ensures { (d : ℕ) (b : Bool) → mark ≡ pick b (power_of d) 0 → result ≡ pick b (after note d) note };

    fn is_fit(note: u16, mark: u16) -> bool
        ensures { (d : ℕ) (b : Bool) → mark ≡ pick b (power_of d) 0 → result ≡ either (not b) (fits d note) };

    ghost laws: { MarkLaws after fits at_cell masked fits_each };
}

// A mark is written, which the note must lack.
pub struct Write;

impl MarkChange for Write {
    ghost after = { with_mark };

    ghost fits = { lacks };

    ghost at_cell = { write_at };

    ghost masked = { write_masked };

    ghost fits_each = { lack_in_turn };

    ghost laws = { write_laws };

    fn changed(note: u16, mark: u16) -> u16 {
        note | mark
    }

    fn is_fit(note: u16, mark: u16) -> bool {
        note & mark == 0
    }
}

// A mark is struck, which must not be missing; what is no digit is missing nowhere.
pub struct Strike;

impl MarkChange for Strike {
    ghost after = { without };

    ghost fits = { not_missing };

    ghost at_cell = { strike_at };

    ghost masked = { strike_masked };

    ghost fits_each = { none_missing_in_turn };

    ghost laws = { strike_laws };

    fn changed(note: u16, mark: u16) -> u16 {
        note - (note & mark)
    }

    fn is_fit(note: u16, mark: u16) -> bool {
        note & mark == mark
    }
}

// The mark `digit` changed at a cell.
pub fn change_in<C: MarkChange>(notes: &mut [u16; 81], cell: usize, digit: u8)
    ensures { notes.new ≡ C.at_cell notes.old cell digit }
{
    let note = note_at(notes, cell);
    put_at(notes, cell, C::changed(note, power(digit)));
}

// The mark `digit` struck from each of the cells that has it, whether the cell holds a digit or not.
pub fn strike_all_in(notes: &mut [u16; 81], digit: u8, cells: [u8; 20])
    ensures { notes.new ≡ strike_all notes.old digit cells }
{
    for cell in cells {
        change_in::<Strike>(notes, usize::from(cell), digit);
    }
}

// The mask with one bit more in front, the lowest: whether the mark `digit` stands in the note.
#[tactic(auto, unfolding(sudoku::specs::Tests::bit))]
fn with_bit(mask: u32, note: u16, digit: u8) -> u32
    requires { mask < 2 ^ 20 }
    ensures { result ≡ bit (contains_of note digit) + 2 * mask }
{
    u32::from(contains(note, digit)) + 2 * mask
}

// The mask of the cells whose note has the mark `digit`: bit i for
// cell i. The last cell's bit is the highest, so it is found first.
pub fn holders(notes: &[u16; 81], digit: u8, cells: [u8; 20]) -> u32
    ensures { (result ≡ holders_of notes.now digit cells) × (result < 2 ^ 20) }
{
    let mut mask = 0;
    for cell in cells.iter().rev() {
        mask = with_bit(mask, note_at(notes, usize::from(*cell)), digit);
    }
    mask
}

// The value of the mark `digit` where the lowest bit of the mask is set, and 0 where it is not. By `as`: a bit is at
// most 1.
fn mark_if(digit: u8, mask: u32) -> u16
    ensures { result ≡ pick (lowest mask) (power_of digit) 0 }
{
    (mask % 2) as u16 * power(digit)
}

// The mark `digit` changed at a cell where the lowest bit of the mask is
// set. Answered is whether the note was fit; yes where the bit is not set.
fn change_if<C: MarkChange>(notes: &mut [u16; 81], cell: usize, digit: u8, mask: u32) -> bool
    ensures fits { result ≡ either (not (lowest mask)) (C.fits digit (at notes.old cell)) }
    ensures changes { notes.new ≡ pick (lowest mask) (C.at_cell notes.old cell digit) notes.old }
{
    let mark = mark_if(digit, mask);
    let note = note_at(notes, cell);
    put_at(notes, cell, C::changed(note, mark));
    C::is_fit(note, mark)
}

// The mark `digit` changed at those of the cells whose bit is set in the mask, and
// no others. Answered is whether the note of each of them was fit when its turn came.
// The cells stand apart from notes, digit and mask: who has a mask of 0 asks for no peers.
pub fn change_masked_in<C: MarkChange>(
    notes: &mut [u16; 81],
    digit: u8,
    mask: u32,
    cells: &[u8; 20],
) -> bool
    ensures fits { result ≡ C.fits_each notes.old digit mask cells.now }
    ensures changes { notes.new ≡ C.masked notes.old digit mask cells.now }
{
    let mut ok = true;
    let mut rest = mask;
    for cell in cells {
        let fits = change_if::<C>(notes, usize::from(*cell), digit, rest);
        ok &= fits;
        rest /= 2;
    }
    ok
}

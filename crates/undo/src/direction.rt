// The two directions in which recorded moves are gone over: back, as undo goes, and again, as redo goes.
ghost use Rattle.std.specs.Prelude.{◌≡◌, [], ◌∷◌, IfOk};
ghost use Rattle.sudoku.specs.Tests.{first};
ghost use Rattle.sudoku.specs.Grid.{at};
ghost use Rattle.board.specs.Errors.{number_told};
ghost use Rattle.undo.specs.Code.Ways.{Way, back, again, Laws};
ghost use Rattle.undo.specs.Code.Kept.{back_laws, again_laws};

use crate::marks::{strike_standing, write_lacking};
use board::error::PlayError;
use journal::notes::{Strike, Write, change_masked_in};
use journal::{Counts, DigitChange};
use play::shown::{Latest, Next, Turn};

// Each change of marks answers whether they stood as they must before it.
pub trait Direction {
    ghost way: { Way };

    // The number of the slot of the move to go over. It is asked of a `Turn`, whose test and number the way has among
    // its own, so that the laws of a way speak of one record.
    fn slot(counts: Counts) -> Result<usize, PlayError>
        ensures number { number_told result ≡ first (way.none counts ∷ []) }
        ensures slot { IfOk result (λ n. n ≡ way.slot counts) };

    // The change of a digit, as it is made now.
    fn turned(change: DigitChange) -> DigitChange
        ensures { result ≡ way.turned change };

    // The mark of a move that wrote it.
    fn written(notes: &mut [u16; 81], cell: usize, digit: u8) -> bool
        ensures { (result ≡ way.written_stood (at notes.old cell) digit) × (notes.new ≡ way.written notes.old cell digit) };

    // The mark of a move that struck it.
    fn struck(notes: &mut [u16; 81], cell: usize, digit: u8) -> bool
        ensures { (result ≡ way.struck_stood (at notes.old cell) digit) × (notes.new ≡ way.struck notes.old cell digit) };

    // The marks of those of the cells that are in the mask.
    fn displaced(notes: &mut [u16; 81], digit: u8, mask: u32, cells: &[u8; 20]) -> bool
        ensures { (result ≡ way.displaced_stood notes.old digit mask cells.now) × (notes.new ≡ way.displaced notes.old digit mask cells.now) };

    // The step of the counts.
    fn step(counts: &mut Counts)
        ensures { counts.new ≡ way.counts counts.old };

    ghost laws: { Laws way };
}

pub struct Back;

impl Direction for Back {
    ghost way = { back };

    ghost laws = { back_laws };

    fn slot(counts: Counts) -> Result<usize, PlayError> {
        Latest::slot(counts)
    }

    fn turned(change: DigitChange) -> DigitChange {
        DigitChange {
            before: change.after,
            after: change.before,
        }
    }

    fn written(notes: &mut [u16; 81], cell: usize, digit: u8) -> bool {
        strike_standing(notes, cell, digit)
    }

    fn struck(notes: &mut [u16; 81], cell: usize, digit: u8) -> bool {
        write_lacking(notes, cell, digit)
    }

    fn displaced(notes: &mut [u16; 81], digit: u8, mask: u32, cells: &[u8; 20]) -> bool {
        change_masked_in::<Write>(notes, digit, mask, cells)
    }

    fn step(counts: &mut Counts) {
        counts.take_back();
    }
}

pub struct Again;

impl Direction for Again {
    ghost way = { again };

    ghost laws = { again_laws };

    fn slot(counts: Counts) -> Result<usize, PlayError> {
        Next::slot(counts)
    }

    fn turned(change: DigitChange) -> DigitChange {
        change
    }

    fn written(notes: &mut [u16; 81], cell: usize, digit: u8) -> bool {
        write_lacking(notes, cell, digit)
    }

    fn struck(notes: &mut [u16; 81], cell: usize, digit: u8) -> bool {
        strike_standing(notes, cell, digit)
    }

    fn displaced(notes: &mut [u16; 81], digit: u8, mask: u32, cells: &[u8; 20]) -> bool {
        change_masked_in::<Strike>(notes, digit, mask, cells)
    }

    fn step(counts: &mut Counts) {
        counts.retake();
    }
}

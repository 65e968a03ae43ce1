// Slots: move n is slot n of the lent journal, eight bytes. The layout is read and written here and nowhere else.
ghost use Rattle.std.specs.Prelude.{◌≡◌, ◌*◌};
ghost use Rattle.journal.specs.Limits.{slot_bytes};
ghost use Rattle.journal.specs.Code.Laid.{laid};
ghost use Rattle.puzzle.specs.Givens.{is_given};
ghost use Rattle.journal.specs.Slots.{bytes_of, slot_at, move_of, sound_place, sound_erase, sound_mark, is_sound, is_free, digit_change as digit_change_of};

use crate::lent::{from_entry, write_entry};
use crate::{DigitChange, Move, MoveKind, NoMove, SLOT_BYTES, Slot};
use puzzle::{byte_at, digit_at};
use sudoku::{SIDE, cell_of, in_range, on_grid};

// A mask has a bit for each of the twenty peers, so it is below this.
const MASK_END: u32 = 1 << 20;

// Slot n, read. What lies past the end of the journal reads as 0,
// also where it ends within a slot, so each byte is asked for.
#[tactic(auto, unfolding(crate::specs::Slots::slot_at, crate::specs::Slots::slot_start, crate::specs::Bytes::three))]
pub fn slot_at(journal: &[u8], n: usize) -> Slot
    ensures { result ≡ slot_at journal.now n }
{
    let slot = from_entry::<SLOT_BYTES>(journal, n);
    Slot {
        kind: byte_at(slot, 0),
        row: byte_at(slot, 1),
        column: byte_at(slot, 2),
        digit: byte_at(slot, 3),
        before: byte_at(slot, 4),
        struck: u32::from_le_bytes([byte_at(slot, 5), byte_at(slot, 6), byte_at(slot, 7), 0]),
    }
}

// Writes a slot behind `standing` others; a journal that ends before it stays as it is.
#[tactic(auto, unfolding(crate::specs::Slots::bytes_of, crate::specs::Bytes::low, crate::specs::Bytes::second, crate::specs::Bytes::third))]
pub fn write_slot(journal: &mut [u8], standing: usize, slot: Slot)
    ensures { journal.new ≡ laid journal.old (slot_bytes * standing) (bytes_of slot) }
{
    let [low, second, third, _] = slot.struck.to_le_bytes();
    let bytes = [
        slot.kind,
        slot.row,
        slot.column,
        slot.digit,
        slot.before,
        low,
        second,
        third,
    ];
    write_entry(journal, standing, &bytes);
}

// The move of a slot, by its kind. No `From`: a byte that is the kind of no move reads as a mark struck, which a
// conversion would hide; who asks whether the slot is sound never sees one.
#[tactic(auto, unfolding(crate::specs::Slots::move_of, crate::specs::Kinds::kind_at, sudoku::specs::Tests::pick))]
pub fn move_of(slot: Slot) -> Move
    ensures { result ≡ move_of slot }
{
    let Slot {
        row,
        column,
        digit,
        ..
    } = slot;
    match MoveKind::try_from(slot.kind) {
        Ok(MoveKind::Place) => Move::Place { row, column, digit },
        Ok(MoveKind::Erase) => Move::Erase { row, column },
        Ok(MoveKind::WriteMark) => Move::WriteMark { row, column, digit },
        _ => Move::StrikeMark { row, column, digit },
    }
}

// What a slot's move does to the digit of its cell. A mark changes none.
#[tactic(auto, unfolding(crate::specs::Slots::digit_change, crate::specs::Kinds::kind_at, sudoku::specs::Tests::pick))]
pub fn digit_change(slot: Slot) -> Option<DigitChange>
    ensures { result ≡ digit_change_of slot }
{
    let before = slot.before;
    match MoveKind::try_from(slot.kind) {
        Ok(MoveKind::Place) => Some(DigitChange {
            before,
            after: slot.digit,
        }),
        Ok(MoveKind::Erase) => Some(DigitChange { before, after: 0 }),
        _ => None,
    }
}

// Whether a cell is a given. No cell beyond the grid is.
#[tactic(auto, unfolding(puzzle::specs::Givens::is_given))]
pub fn is_given(given: &[u8; 81], cell: usize) -> bool
    ensures { result ≡ is_given given.now cell }
{
    digit_at(given, cell) != 0
}

// Whether a position is on the grid and no given's.
#[tactic(auto, unfolding(crate::specs::Slots::is_free, sudoku::specs::Tests::both))]
pub fn is_free(given: &[u8; 81], row: u8, column: u8) -> bool
    ensures { result ≡ is_free given.now row column }
{
    on_grid(row, column) && !is_given(given, cell_of(row, column))
}

// Of a place: a digit, a digit before of 0 to 9, a mask of twenty bits.
#[tactic(auto, unfolding(crate::specs::Slots::sound_place, sudoku::specs::Tests::both))]
fn sound_place(slot: Slot) -> bool
    ensures { result ≡ sound_place slot }
{
    in_range(slot.digit) && slot.before <= SIDE && slot.struck < MASK_END
}

// Of an erase: no digit, a digit before, no mask.
#[tactic(auto, unfolding(crate::specs::Slots::sound_erase, sudoku::specs::Tests::both))]
fn sound_erase(slot: Slot) -> bool
    ensures { result ≡ sound_erase slot }
{
    slot.digit == 0 && in_range(slot.before) && slot.struck == 0
}

// Of the marks: a digit, no digit before, no mask.
#[tactic(auto, unfolding(crate::specs::Slots::sound_mark, sudoku::specs::Tests::both))]
fn sound_mark(slot: Slot) -> bool
    ensures { result ≡ sound_mark slot }
{
    in_range(slot.digit) && slot.before == 0 && slot.struck == 0
}

// Whether a slot is sound: its kind is one of the four, its fields lie
// in that kind's ranges, and its cell is on the grid and no given's.
#[tactic(auto, unfolding(crate::specs::Slots::is_sound, crate::specs::Kinds::kind_at, sudoku::specs::Tests::pick, sudoku::specs::Tests::both, sudoku::specs::Tests::either))]
pub fn is_sound(given: &[u8; 81], slot: Slot) -> bool
    ensures { result ≡ is_sound given.now slot }
{
    is_free(given, slot.row, slot.column)
        && match MoveKind::try_from(slot.kind) {
            Ok(MoveKind::Place) => sound_place(slot),
            Ok(MoveKind::Erase) => sound_erase(slot),
            Ok(MoveKind::WriteMark | MoveKind::StrikeMark) => sound_mark(slot),
            Err(NoMove) => false,
        }
}

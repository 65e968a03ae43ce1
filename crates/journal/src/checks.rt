// Stored checks: check n is the nth six bytes of the lent check
// memory. The layout is read and written here and nowhere else.
ghost use Rattle.std.specs.Prelude.{◌≡◌, ◌*◌};
ghost use Rattle.journal.specs.Limits.{check_bytes};
ghost use Rattle.journal.specs.Code.Asked.{asked_in};
ghost use Rattle.journal.specs.Code.Laid.{laid};
ghost use Rattle.journal.specs.StoredChecks.{stored as stored_of, is_right, judged, stored_bytes, verdict_byte, asked_at, sound_stored, is_sound_check};

use crate::lent::{from_entry, write_entry};
use crate::slots::is_free;
use crate::{Asked, CHECK_BYTES, MAX_MOVES};
use puzzle::{byte_at, digit_at};
use sudoku::{cell_of, in_range};

// Whether a digit is the solution's at a cell.
#[tactic(auto, unfolding(crate::specs::StoredChecks::is_right))]
pub fn is_right(solution: &[u8; 81], cell: usize, digit: u8) -> bool
    ensures { result ≡ is_right solution.now cell digit }
{
    digit_at(solution, cell) == digit
}

// Writes a check behind `index` others, its verdict 1 for right, else 0; a memory that ends before it stays as it is.
#[tactic(auto, unfolding(sudoku::specs::Tests::bit, crate::specs::StoredChecks::stored_bytes, crate::specs::Bytes::low, crate::specs::Bytes::second))]
fn write_check(checks: &mut [u8], index: usize, asked: Asked, right: bool)
    ensures { checks.new ≡ laid checks.old (check_bytes * index) (stored_bytes (stored_of asked right)) }
{
    let [low, second, ..] = asked.standing.to_le_bytes();
    let bytes = [
        low,
        second,
        asked.row,
        asked.column,
        asked.digit,
        u8::from(right),
    ];
    write_entry(checks, index, &bytes);
}

// Judges a digit and stores the check behind `index` others, where the memory has room for it; answers the verdict.
pub fn store_check(checks: &mut [u8], index: usize, solution: &[u8; 81], asked: Asked) -> bool
    ensures { (result ≡ (judged solution.now asked).right) × (checks.new ≡ laid checks.old (check_bytes * index) (stored_bytes (judged solution.now asked))) }
{
    let right = is_right(solution, cell_of(asked.row, asked.column), asked.digit);
    write_check(checks, index, asked, right);
    right
}

// What the first five bytes ask about: of a stored check, and of a record's behind its kind byte. What lies past their
// end reads as 0.
#[tactic(auto, unfolding(crate::specs::Code::Asked::asked_in, crate::specs::Bytes::two))]
pub fn asked_in(bytes: &[u8]) -> Asked
    ensures { result ≡ asked_in bytes.now }
{
    let standing = u16::from_le_bytes([byte_at(bytes, 0), byte_at(bytes, 1)]);
    Asked {
        standing: usize::from(standing),
        row: byte_at(bytes, 2),
        column: byte_at(bytes, 3),
        digit: byte_at(bytes, 4),
    }
}

// What stored check n asked.
#[tactic(auto, unfolding(crate::specs::StoredChecks::check_start, crate::specs::Code::Asked::asked_in))]
pub fn check_at(checks: &[u8], n: usize) -> Asked
    ensures { result ≡ asked_at checks.now n }
{
    asked_in(from_entry::<CHECK_BYTES>(checks, n))
}

// The verdict byte of stored check n, 0 past the end of the memory.
#[tactic(auto, unfolding(crate::specs::StoredChecks::check_start, crate::specs::StoredChecks::verdict_byte))]
pub fn verdict_at(checks: &[u8], n: usize) -> u8
    ensures { result ≡ verdict_byte checks.now n }
{
    byte_at(from_entry::<CHECK_BYTES>(checks, n), 5)
}

// Whether the fields of a check and its verdict byte lie in their ranges, and its cell is on the grid and no given's.
#[tactic(auto, unfolding(crate::specs::StoredChecks::sound_stored, sudoku::specs::Tests::both))]
fn sound_fields(given: &[u8; 81], asked: Asked, verdict: u8) -> bool
    ensures { result ≡ sound_stored given.now asked verdict }
{
    is_free(given, asked.row, asked.column)
        && (1..=MAX_MOVES).contains(&asked.standing)
        && in_range(asked.digit)
        && verdict <= 1
}

// Whether stored check n is sound.
#[tactic(auto, unfolding(crate::specs::StoredChecks::is_sound_check))]
pub fn is_sound_check(given: &[u8; 81], checks: &[u8], n: usize) -> bool
    ensures { result ≡ is_sound_check given.now checks.now n }
{
    sound_fields(given, check_at(checks, n), verdict_at(checks, n))
}

// Notes: the marks of one cell, in a `u16`. Mark d is the bit of value 2 to the power d, d from 1 to 9.
// Every function takes any note and any byte for a digit: what is no digit is no mark of any note.
#![tactic(auto)]

ghost use Rattle.std.specs.Prelude.{◌≡◌};
ghost use Rattle.note.specs.Note.{contains as contains_of, with_mark, without as without_mark, len_of, is_empty, digits_of, is_note, power_of};

use sudoku::in_range;

// The bits of the marks 1 to 9.
const MARKS: u16 = 0x3fe;

// The value of the mark `digit`, and 0 for what is not a digit from 1 to 9.
pub fn power(digit: u8) -> u16
    ensures { result ≡ power_of digit }
{
    if in_range(digit) { 1 << digit } else { 0 }
}

// Whether the mark `digit` is written. No note holds a mark that is not a digit from 1 to 9.
pub fn contains(note: u16, digit: u8) -> bool
    ensures { result ≡ contains_of note digit }
{
    note & power(digit) != 0
}

// The note with the mark `digit` written, or the same note for what is not a digit. This and the next are the
// original's; a move changes a note by the mark's value, over which crate journal has one loop for both.
pub fn with(note: u16, digit: u8) -> u16
    ensures { result ≡ with_mark note digit }
{
    note | power(digit)
}

// The note with the mark `digit` struck.
pub fn without(note: u16, digit: u8) -> u16
    ensures { result ≡ without_mark note digit }
{
    note - (note & power(digit))
}

// How many marks are written. By `as`: a `u32` of at most 9, and no `From` leads from it to a length.
pub fn len(note: u16) -> usize
    ensures { result ≡ len_of note }
{
    (note & MARKS).count_ones() as usize
}

// Whether no mark is written. Every note starts so.
#[tactic(auto, unfolding(crate::specs::Note::is_empty))]
pub fn is_empty(note: u16) -> bool
    ensures { result ≡ is_empty note }
{
    len(note) == 0
}

// The marks written, from the lowest digit to the highest, then zeros. There is no heap to collect them on, so each is
// stored behind the ones before it. Places zipped with a filter of the digits would be no plainer: what of the filter
// is used up would have to be said of every turn.
pub fn digits(note: u16) -> [u8; 9]
    ensures { result ≡ digits_of note }
{
    let mut marks = [0u8; 9];
    let mut n: usize = 0;
    for mark in 1..10 {
        if contains(note, mark) {
            marks[n] = mark;
            n += 1;
        }
    }
    marks
}

// Whether the note has no bit but those of the marks 1 to 9.
#[tactic(auto, unfolding(crate::specs::Note::is_note, sudoku::specs::Tests::both))]
pub fn is_note(note: u16) -> bool
    ensures { result ≡ is_note note }
{
    note % 2 == 0 && note < 1024
}

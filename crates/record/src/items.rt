// Items: what a kind byte decides, and what stands at an offset of a record's bytes.
ghost use Rattle.std.specs.Prelude.{◌≡◌, ◌+◌, ◌≤◌, ◌<◌, length, drop, get_or};
ghost use Rattle.journal.specs.Bytes.{two};
ghost use Rattle.record.specs.Code.Counting.{shape_of, taken, read_of, move_at, asked_from, item_of};

use crate::{Group, Item, Read, Shape};
use journal::checks::asked_in;
use journal::slots::move_of;
use journal::{Asked, Move, Slot};
use puzzle::given_bytes::given_from;
use puzzle::{byte_at, bytes_from};

// What the kind byte of an item decides; nothing where no item has the kind. A match on the byte with its ranges, as
// the requirement has it (docs/CLAIMS.md, the forms that document 01 names).
#[tactic(auto, unfolding(crate::specs::Code::Counting::shape_of, crate::specs::Scan::by_kind, sudoku::specs::Tests::pick))]
pub fn shape(kind: u8) -> Option<Shape>
    ensures { result ≡ shape_of kind }
{
    match kind {
        1 => Some(Shape {
            group: Group::Givens,
            body: 3,
        }),
        2 | 4..=5 => Some(Shape {
            group: Group::Moves,
            body: 3,
        }),
        3 => Some(Shape {
            group: Group::Moves,
            body: 2,
        }),
        6 => Some(Shape {
            group: Group::Count,
            body: 2,
        }),
        7 => Some(Shape {
            group: Group::Checks,
            body: 5,
        }),
        0 | 8..=255 => None,
    }
}

// Two bytes, low first, as a number.
#[tactic(auto, unfolding(journal::specs::Bytes::two))]
fn two_at(bytes: &[u8], at: usize) -> usize
    requires { at ≤ length bytes.now + 1 }
    ensures { result ≡ two (get_or bytes.now at 0) (get_or bytes.now (at + 1) 0) }
{
    usize::from(u16::from_le_bytes([byte_at(bytes, at), byte_at(bytes, at + 1)]))
}

// The move whose kind byte stands at an offset; every byte past the end reads as 0. A move's item has the first four
// bytes of its slot, and is read as one.
#[tactic(auto, unfolding(crate::specs::Code::Counting::move_at))]
pub fn move_at(bytes: &[u8], at: usize) -> Move
    ensures { result ≡ move_at bytes.now at }
{
    let item = bytes_from(bytes, at);
    move_of(Slot {
        kind: byte_at(item, 0),
        row: byte_at(item, 1),
        column: byte_at(item, 2),
        digit: byte_at(item, 3),
        before: 0,
        struck: 0,
    })
}

// The check whose kind byte stands at an offset.
#[tactic(auto, unfolding(crate::specs::Code::Counting::asked_from, journal::specs::Code::Asked::asked_in))]
pub fn asked_at(bytes: &[u8], at: usize) -> Asked
    ensures { result ≡ asked_from bytes.now at }
{
    asked_in(bytes_from(bytes_from(bytes, at), 1))
}

// The item of a group whose kind byte stands at an offset.
#[tactic(auto, unfolding(crate::specs::Code::Counting::item_of, crate::specs::Items::check_item, puzzle::specs::Code::GivenBytes::given_from))]
fn item_at(bytes: &[u8], at: usize, group: Group) -> Item
    requires { at < length bytes.now }
    ensures { result ≡ item_of bytes.now at group }
{
    match group {
        Group::Givens => Item::Given(given_from(bytes, at + 1)),
        Group::Moves => Item::Played(move_at(bytes, at)),
        Group::Count => Item::Undone(two_at(bytes, at + 1)),
        Group::Checks => Item::Check(asked_at(bytes, at)),
    }
}

// The item at an offset, and where the next one starts; nothing where no item stands or one is cut short.
pub fn read_item(bytes: &[u8], at: usize) -> Option<Read>
    ensures { result ≡ read_of at (taken (drop at bytes.now)) }
{
    let form = shape(*bytes.get(at)?)?;
    if bytes.len() - at <= form.body {
        return None;
    }
    Some(Read {
        item: item_at(bytes, at, form.group),
        next: at + 1 + form.body,
    })
}

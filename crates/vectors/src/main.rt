// Replays stored answers of the Rust original: each block of standard input is a session or a reopening with what the
// original answered. Every answer, the board, the record, its reopening, the questions and some readings must be those
// that are stored. All of it goes through the functions that a host calls. docs/VECTORS.md has the layout.
#![tactic(auto)]

mod block;
mod session;
mod tally;

use block::Block;
use session::{reopening, session};
use std::fmt::InlineText;
use tally::{Tally, count};

// The descriptors that a program begins with.
const STDIN: i32 = 0;

const STDOUT: i32 = 1;

// A block is a session (1) or a reopening (2). Whether it is one of them, and there may be more.
fn replayed(bytes: &[u8], tally: &mut Tally) -> bool {
    let mut block = Block::new(bytes);
    match block.byte() {
        1 => session(&mut block, tally),
        2 => reopening(&mut block, tally),
        _ => {
            tally.expect(false);
            return false;
        }
    }
    tally.expect(block.is_read());
    true
}

// Reads one block, two bytes of length before it, and replays it. Where the input ends there is no more; a block cut
// short differs, and so does each byte of a length cut short.
fn next_block(tally: &mut Tally) -> bool {
    let mut header = [0u8; 2];
    let got = io::read_full(STDIN, &mut header);
    if got != header.len() {
        count(&mut tally.differences, got);
        return false;
    }
    let length = usize::from(u16::from_le_bytes(header));
    let mut buffer = io::large_buffer();
    let block = &mut buffer[..length];
    if io::read_full(STDIN, block) != length {
        tally.expect(false);
        return false;
    }
    replayed(block, tally)
}

// A proved loop has to end, and nothing says that the input does: it takes as many turns as no input uses up. Each
// block is counted by itself and then added, so that a count which is too large to grow ends with a whole block.
fn replay() -> Tally {
    let mut tally = Tally::default();
    for _ in 0..u64::MAX {
        let mut block = Tally::default();
        let more = next_block(&mut block);
        tally.add(block);
        if !more {
            break;
        }
    }
    tally
}

// What was replayed, in one line.
fn print(tally: Tally) {
    let Tally {
        sessions,
        calls,
        readings,
        reopenings,
        differences,
    } = tally;
    let line = InlineText::<256>::of(format_args!(
        "{sessions} sessions, {calls} calls, {readings} readings and {reopenings} reopenings replayed, \
         {differences} differences\n"
    ));
    io::write_all(STDOUT, line.as_str().as_bytes());
}

fn main() {
    print(replay());
}

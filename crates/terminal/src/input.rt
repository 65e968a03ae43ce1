// Lines of any length, of bytes of any kind, from standard input.
ghost use Rattle.std.specs.Prelude.{◌≡◌, ◌+◌, ◌≤◌, option_map, length};

use puzzle::byte_at;
use std::io::Read;

// Bytes of input that are read at once.
const INPUT_BYTES: usize = 4096;
// The most bytes of a line that is taken.
pub const LINE_BYTES: usize = 256;

// Standard input: what of it was read and is not used stands in the buffer from `at` on, before `end`. The memory of
// both structs is fixed, so that the console needs no heap.
#[derive(Clone, Copy)]
pub struct Input {
    buffer: [u8; INPUT_BYTES],
    at: usize,
    end: usize,
}

// A line, in the first bytes of its memory. Where a byte found no room, the length is one more than the memory has, so
// that `get` answers none; an enum around the memory would be taken apart and made anew at each byte.
#[derive(Clone, Copy)]
pub struct Line {
    memory: [u8; LINE_BYTES],
    length: usize,
}

impl Line {
    ghost use Rattle.terminal.specs.Input.{line_bytes, empty_line, with_byte, line_text};

    #[tactic(auto, unfolding(crate::specs::Input::empty_line))]
    fn new() -> Line
        ensures { result ≡ empty_line }
    {
        Line {
            memory: [0u8; LINE_BYTES],
            length: 0,
        }
    }

    // A byte at the end of the line; what finds no room is dropped, and the line is too long.
    #[tactic(auto, unfolding(crate::specs::Input::with_byte, sudoku::specs::Tests::pick))]
    fn put(&mut self, byte: u8)
        ensures line { self.new ≡ with_byte self.old byte }
        ensures fits { self.new.length ≤ line_bytes + 1 }
    {
        if self.length < LINE_BYTES {
            self.memory[self.length] = byte;
            self.length += 1;
        } else {
            self.length = LINE_BYTES + 1;
        }
    }

    // The bytes of the line; none where it is too long.
    #[tactic(auto, unfolding(crate::specs::Input::line_text, sudoku::specs::Tests::pick))]
    pub fn text(&self) -> Option<&[u8]>
        ensures { option_map (λ text. text.now) result ≡ line_text self.now }
    {
        self.memory.get(..self.length)
    }
}

impl Input {
    ghost use Rattle.terminal.specs.Input.{no_input, taken_at, behind, ByteTaken, LineRead};

    #[tactic(auto, unfolding(crate::specs::Input::no_input))]
    pub fn new() -> Input
        ensures { result ≡ no_input }
    {
        Input {
            buffer: [0u8; INPUT_BYTES],
            at: 0,
            end: 0,
        }
    }

    // The next byte of those that were read.
    #[tactic(auto, unfolding(crate::specs::Input::taken_at, crate::specs::Input::behind, sudoku::specs::Tests::pick))]
    fn taken(&mut self) -> Option<u8>
        ensures byte { result ≡ taken_at self.old }
        ensures behind { self.new ≡ behind self.old }
    {
        if self.at >= self.end {
            return None;
        }
        let byte = byte_at(&self.buffer, self.at);
        self.at += 1;
        Some(byte)
    }

    // Reads what the input has: nothing where it ended or cannot be read.
    fn read_anew<I: Read>(&mut self, input: &mut I)
        ensures start { self.new.at ≡ 0 }
        ensures within { self.new.end ≤ length self.new.buffer }
    {
        self.at = 0;
        self.end = input.read(&mut self.buffer).unwrap_or(0);
    }

    // The next byte of the input, read anew where all that were read are used; none where it ended.
    fn next_byte<I: Read>(&mut self, input: &mut I) -> Option<u8>
        ensures { ByteTaken self.old self.new result }
    {
        if self.at < self.end {
            return self.taken();
        }
        self.read_anew(input);
        self.taken()
    }

    // The next line; none where the input ended before a byte of one. A proved loop has to end, and nothing says that a
    // line does, so the loop has more turns than any line uses; what was read by then is handed out.
    pub fn read_line<I: Read>(&mut self, input: &mut I) -> Option<Line>
        ensures { LineRead self.old self.new result }
    {
        let mut line = Line::new();
        for _ in 0..u64::MAX {
            let Some(byte) = self.next_byte(input) else {
                return if line.length == 0 { None } else { Some(line) };
            };
            if byte == b'\n' {
                return Some(line);
            }
            line.put(byte);
        }
        Some(line)
    }
}

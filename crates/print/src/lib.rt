// What the console and the referee write to standard output. No contract can say what a descriptor gets, so all of
// this is thin: the drawing is made in crate screen, every answer in the library.
#![tactic(auto)]

ghost use Rattle.std.specs.Prelude.{◌≡◌, ◌<◌, ◌++◌, ◌==◌, if◌then◌else◌, Some, decimal};
ghost use Rattle.print.specs.Shown.{is_printable, shown_byte, shown_text};

use std::fmt;
use std::fmt::Display;

pub mod deeds;
pub mod drawing;
pub mod words;

// The descriptor that a program writes to.
const STDOUT: i32 = 1;

// Standard output. A write that fails is passed over: there is nowhere else to say it.
#[derive(Clone, Copy)]
struct Output;

impl fmt::Write for Output {
    fn write_str(&mut self, text: &str) -> fmt::Result {
        say(text.as_bytes());
        Ok(())
    }
}

// Shows a value, as it displays itself.
pub fn show<T: Display + Drop>(value: T) {
    let mut output = Output;
    let _ = fmt::Write::write(&mut output, value);
}

// Bytes as they are: a drawing, a line.
pub fn say(text: &[u8]) {
    io::write_all(STDOUT, text);
}

#[tactic(auto, unfolding(crate::specs::Shown::is_printable, sudoku::specs::Tests::both))]
fn is_printable(byte: u8) -> bool
    ensures { result ≡ is_printable byte }
{
    matches!(byte, b' '..=b'~')
}

// A byte, or ? where it is not printable.
#[tactic(auto, unfolding(crate::specs::Shown::shown_byte, crate::specs::Shown::is_printable, sudoku::specs::Tests::pick, sudoku::specs::Tests::both))]
fn shown_byte(byte: u8) -> u8
    ensures shown { result ≡ shown_byte byte }
    ensures ascii { result < 128 }
{
    if is_printable(byte) { byte } else { b'?' }
}

// A text from outside: its printable characters, and ? for every other byte.
#[derive(Clone, Copy)]
pub struct Printable<'a>(pub &'a [u8]);

impl<'a> Display for Printable<'a> {
    ghost output = { λ p. Some (shown_text p.0.now) };

    fn fmt<W: fmt::Write>(&self, f: &mut fmt::Formatter<W>) -> fmt::Result {
        for byte in self.0 {
            f.write_char(char::from(shown_byte(*byte)))?;
        }
        Ok(())
    }
}

// How many there are of a thing, with its noun.
#[derive(Clone, Copy)]
pub struct Count<'a> {
    pub n: usize,
    pub one: &'a str,
    pub more: &'a str,
}

impl<'a> Display for Count<'a> {
    ghost output = { λ c. Some (decimal c.n ++ (if c.n == 1 then c.one.now else c.more.now)) };

    fn fmt<W: fmt::Write>(&self, f: &mut fmt::Formatter<W>) -> fmt::Result {
        let Count { n, one, more } = *self;
        let noun = if n == 1 { one } else { more };
        write!(f, "{n}{noun}")
    }
}

// How many there are of a thing, with its noun as bytes of any kind.
pub fn counted(n: usize, one: &[u8], more: &[u8]) {
    show(n);
    say(if n == 1 { one } else { more });
}

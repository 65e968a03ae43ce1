// A line taken apart into its command and the words after it.
ghost use Rattle.std.specs.Prelude.{◌≡◌, ◌≤◌, not, eqb, length};
ghost use Rattle.std.specs.List.{position_or_len};
ghost use Rattle.sudoku.specs.Tests.{pick, either, both, bit};
ghost use Rattle.texts.specs.Commands.{is_blank, word_of, behind_word, said, said_of, with_figure, number_of, verb_of_play, verb_of_rest, verb_of, verb_of_letter, found, line_verb, request, command_of};

use crate::{Command, Verb, Words};

// A blank, a tab, or what some systems put before a line's end.
#[tactic(auto, unfolding(crate::specs::Commands::is_blank, sudoku::specs::Tests::either))]
fn is_blank(byte: u8) -> bool
    ensures { result ≡ is_blank byte }
{
    matches!(byte, b' ' | b'\t' | b'\r')
}

// How many bytes of a text stand before its first word.
fn blanks(text: &[u8]) -> usize
    ensures { (result ≡ position_or_len (λ byte. not (is_blank byte)) text.now) × (result ≤ length text.now) }
{
    let first = text.iter().position(|byte| !is_blank(*byte));
    first.unwrap_or(text.len())
}

// How many bytes of a text stand before its first blank.
fn word_length(text: &[u8]) -> usize
    ensures { (result ≡ position_or_len is_blank text.now) × (result ≤ length text.now) }
{
    let first = text.iter().position(|byte| is_blank(*byte));
    first.unwrap_or(text.len())
}

// The first word of a line, and what follows it; an empty word where there is none.
#[tactic(auto, unfolding(crate::specs::Commands::word_of, crate::specs::Commands::behind_word, crate::specs::Commands::from_word))]
fn word(line: &[u8]) -> (&[u8], &[u8])
    ensures word { result.0.now ≡ word_of line.now }
    ensures behind { result.1.now ≡ behind_word line.now }
{
    let rest = &line[blanks(line)..];
    rest.split_at(word_length(rest))
}

// A number with one more figure; more than 6000 and a figure is held at 65,535. Both are far above any row, digit or
// move, and ten times 6000 and a figure stay below 65,535.
#[tactic(auto, unfolding(crate::specs::Commands::with_figure, sudoku::specs::Tests::pick, sudoku::specs::Tests::both))]
fn with_figure(n: usize, byte: u8) -> Option<usize>
    ensures { result ≡ with_figure n byte }
{
    match byte {
        b'0'..=b'9' if n > 6000 => Some(65535),
        b'0'..=b'9' => Some(10 * n + usize::from(byte - b'0')),
        _ => None,
    }
}

// The number that a text says. A long one is held and not refused, since it is a number: what is said of it then is
// that there is no such cell or move. By no library's parse, which takes +5, and refuses a long number as it does a
// word.
pub fn number(text: &[u8]) -> Option<usize>
    ensures { result ≡ number_of text.now }
{
    if text.is_empty() {
        return None;
    }
    let mut n: usize = 0;
    for byte in text {
        n = with_figure(n, *byte)?;
    }
    Some(n)
}

// The command of a letter. A match and no column of NAMES: a line's end, the byte 0 and the letters of no command have
// one too, and its arms are proved as they stand, where a search in a table wants a proof by hand.
#[tactic(auto, unfolding(crate::specs::Commands::verb_of_letter, sudoku::specs::Tests::pick))]
fn verb_of_letter(letter: u8) -> Verb
    ensures { result ≡ verb_of_letter letter }
{
    match letter {
        b'p' => Verb::Place,
        b'e' => Verb::Erase,
        b'm' => Verb::Mark,
        b'u' => Verb::Undo,
        b'r' => Verb::Redo,
        b'c' => Verb::Check,
        b'l' => Verb::Latest,
        b'n' => Verb::Next,
        b'k' => Verb::Move,
        b'd' => Verb::Left,
        b'b' => Verb::Board,
        b'w' => Verb::Save,
        b'o' => Verb::Open,
        b'z' => Verb::Puzzle,
        b'i' => Verb::Line,
        b'h' => Verb::Help,
        b'q' => Verb::Quit,
        b'\n' => Verb::NoWord,
        0 => Verb::Unknown(None),
        _ => Verb::Unknown(Some(letter)),
    }
}

// The commands by their names.
const NAMES: [(&[u8], Verb); 17] = [
    (b"place", Verb::Place),
    (b"erase", Verb::Erase),
    (b"mark", Verb::Mark),
    (b"undo", Verb::Undo),
    (b"redo", Verb::Redo),
    (b"check", Verb::Check),
    (b"latest", Verb::Latest),
    (b"next", Verb::Next),
    (b"move", Verb::Move),
    (b"left", Verb::Left),
    (b"board", Verb::Board),
    (b"save", Verb::Save),
    (b"open", Verb::Open),
    (b"puzzle", Verb::Puzzle),
    (b"line", Verb::Line),
    (b"help", Verb::Help),
    (b"quit", Verb::Quit),
];

// The command that a name says. By a table and not by a match on the name, whose proof would have a goal for each byte
// at which the names part.
fn named(name: &[u8]) -> Option<Verb>
    ensures { result ≡ found (pick (eqb (verb_of_play name.now) 0) (verb_of_rest name.now) (verb_of_play name.now)) }
{
    let known = NAMES.iter().find(|known| name == known.0);
    known.map(|known| known.1)
}

// The command of a name: a name of one letter is itself the letter.
fn verb_of(name: &[u8]) -> Verb
    ensures { result ≡ verb_of_letter (verb_of name.now) }
{
    match name {
        [letter] => verb_of_letter(*letter),
        _ => named(name).unwrap_or(Verb::Unknown(None)),
    }
}

// The command of a line whose first word is given.
#[tactic(auto, unfolding(crate::specs::Commands::line_verb, crate::specs::Commands::verb_of_letter, sudoku::specs::Tests::pick))]
fn line_verb(name: &[u8]) -> Verb
    ensures { result ≡ verb_of_letter (line_verb name.now) }
{
    if name.is_empty() {
        return Verb::NoWord;
    }
    verb_of(name)
}

// The words of a text.
#[tactic(auto, using(crate::proofs::Behind::no_word_said, crate::proofs::Behind::one_word_said, crate::proofs::Behind::two_words_said, crate::proofs::Behind::three_words_said, crate::proofs::Behind::more_words_said))]
fn words(text: &[u8]) -> Words<'_>
    ensures { said result ≡ said_of text.now }
{
    let (one, rest) = word(text);
    if one.is_empty() {
        return Words::Zero;
    }
    let (two, rest) = word(rest);
    if two.is_empty() {
        return Words::One(one);
    }
    let (three, rest) = word(rest);
    if three.is_empty() {
        return Words::Two(one, two);
    }
    let (four, _) = word(rest);
    if four.is_empty() {
        return Words::Three(one, two, three);
    }
    Words::More(one, two, three)
}

// A line taken apart.
#[tactic(auto, unfolding(crate::specs::Commands::command_of, crate::specs::Commands::command_after, crate::specs::Commands::said_of))]
pub fn taken_apart(line: &[u8]) -> Command<'_>
    ensures { request result ≡ command_of line.now }
{
    let (name, rest) = word(line);
    Command {
        verb: line_verb(name),
        words: words(rest),
    }
}

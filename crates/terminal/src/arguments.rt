// What the console is started with.
use files::arguments::{count, word};
use files::disk::PATH_MAX;
use std::env::Env;
use std::io::IsTerminal;

// When to colour.
#[derive(Clone, Copy)]
pub(crate) enum Colour {
    OnTerminal,
    Always,
    Never,
}

impl Colour {
    pub(crate) fn is_on<O: IsTerminal>(self, output: &O) -> bool {
        match self {
            Colour::OnTerminal => output.is_terminal(),
            Colour::Always => true,
            Colour::Never => false,
        }
    }
}

// What a word of the command line is: a name is a word too, and so this is no Option.
#[derive(Clone, Copy)]
enum Word {
    Name,
    Colour(Colour),
}

// None where it is nothing that the console knows.
fn word_of(word: &[u8]) -> Option<Word> {
    match word {
        b"--colour" | b"--color" => Some(Word::Colour(Colour::Always)),
        b"--plain" => Some(Word::Colour(Colour::Never)),
        [] | [b'-', ..] => None,
        _ => Some(Word::Name),
    }
}

// The command line: which of its words are the names of files, and how to colour. It has the numbers of those words and
// not the words: there is no heap, and a word is laid in memory of whoever reads it.
#[derive(Clone, Copy)]
pub(crate) struct Arguments {
    pub(crate) file: Option<usize>,
    pub(crate) solution: Option<usize>,
    pub(crate) colour: Colour,
}

impl Arguments {
    // With the name of a file at word i; none where there are two already.
    fn with_name(self, i: usize) -> Option<Arguments> {
        match self {
            Arguments { file: None, .. } => Some(Arguments {
                file: Some(i),
                ..self
            }),
            Arguments { solution: None, .. } => Some(Arguments {
                solution: Some(i),
                ..self
            }),
            _ => None,
        }
    }

    // With word i. Kept apart: laid into its callers, the word would take its room on the stack until the console ends.
    #[inline(never)]
    fn with_word<R: Env>(self, rt: &R, i: usize) -> Option<Arguments> {
        let mut memory = [0u8; PATH_MAX];
        match word_of(word(rt, i, &mut memory)?)? {
            Word::Name => self.with_name(i),
            Word::Colour(colour) => Some(Arguments { colour, ..self }),
        }
    }

    // The whole command line; none where something in it is wrong.
    pub(crate) fn read<R: Env>(rt: &R) -> Option<Arguments> {
        let mut so_far = Arguments {
            file: None,
            solution: None,
            colour: Colour::OnTerminal,
        };
        for i in 1..count(rt) {
            so_far = so_far.with_word(rt, i)?;
        }
        Some(so_far)
    }
}

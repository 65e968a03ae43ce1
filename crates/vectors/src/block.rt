// A block of stored answers as it is read, part by part. docs/VECTORS.md has the layout.
ghost use Rattle.std.specs.Prelude.{◌<◌};

use puzzle::Refusal;

// The bytes of a block, and the place where reading stands. Reading goes on by the layout also where the block is
// shorter: each byte behind its end is 0, and a part that is not whole there is empty.
#[derive(Clone, Copy)]
pub struct Block<'a> {
    bytes: &'a [u8],
    at: usize,
}

impl<'a> Block<'a> {
    pub(crate) fn new(bytes: &'a [u8]) -> Block<'a> {
        Block { bytes, at: 0 }
    }

    // No place in a block comes near the greatest number, so no sum here stays at it.
    fn go_on(&mut self, length: usize) {
        self.at = self.at.saturating_add(length);
    }

    // The next bytes where all of them are there, and none otherwise.
    fn next(&self, length: usize) -> &'a [u8] {
        let rest = self.bytes.get(self.at..);
        rest.and_then(|rest| rest.get(..length)).unwrap_or(&[])
    }

    // The next bytes, behind which reading goes on whether they are there or not.
    pub(crate) fn bytes(&mut self, length: usize) -> &'a [u8] {
        let part = self.next(length);
        self.go_on(length);
        part
    }

    // The next bytes; where they are not there, reading goes on where it stood.
    pub(crate) fn present(&mut self, length: usize) -> &'a [u8] {
        let part = self.next(length);
        self.go_on(part.len());
        part
    }

    pub(crate) fn byte(&mut self) -> u8 {
        match self.bytes(1) {
            [byte] => *byte,
            _ => 0,
        }
    }

    // Two bytes, low first.
    pub(crate) fn number(&mut self) -> usize
        ensures { result < 65536 }
    {
        usize::from(self.note())
    }

    // Two bytes, each read by itself: where a block ends between them, the low one counts.
    pub(crate) fn note(&mut self) -> u16 {
        let low = self.byte();
        let high = self.byte();
        u16::from_le_bytes([low, high])
    }

    // The notes of a grid.
    pub(crate) fn notes(&mut self) -> [u16; 81] {
        let mut notes = [0u16; 81];
        for note in notes.iter_mut() {
            *note = self.note();
        }
        notes
    }

    // Number, place and inner number.
    pub(crate) fn refusal(&mut self) -> Refusal {
        Refusal {
            number: self.byte(),
            place: self.number(),
            inner: self.byte(),
        }
    }

    // Whether all of it was read, and no more.
    pub(crate) fn is_read(&self) -> bool {
        self.at == self.bytes.len()
    }
}

// What the journal shows: the latest standing move, the next to redo, and the reading of move k.
// A part of the journal cannot be returned over the C boundary: the slot's bytes are copied and its offset is answered.
ghost use Rattle.std.specs.Prelude.{◌≡◌};
ghost use Rattle.readings.specs.Reading.{reading_of};
ghost use Rattle.pawdoku.specs.Library.{latest_shown, next_shown};

use board::Board;
use pawdoku::Shown;
use readings::Reading;

#[unsafe(no_mangle)]
pub extern "C" fn pawdoku_latest(board: Board, journal: &[u8], output: &mut [u8]) -> Shown
    ensures value { result ≡ (latest_shown board journal.now output.old).answer }
    ensures output_after { output.new ≡ (latest_shown board journal.now output.old).output }
{
    pawdoku::slots::pawdoku_latest(board, journal, output)
}

#[unsafe(no_mangle)]
pub extern "C" fn pawdoku_next(board: Board, journal: &[u8], output: &mut [u8]) -> Shown
    ensures value { result ≡ (next_shown board journal.now output.old).answer }
    ensures output_after { output.new ≡ (next_shown board journal.now output.old).output }
{
    pawdoku::slots::pawdoku_next(board, journal, output)
}

#[unsafe(no_mangle)]
pub extern "C" fn pawdoku_reading(board: Board, journal: &[u8], k: usize) -> Reading
    ensures { result ≡ reading_of board journal.now k }
{
    pawdoku::slots::pawdoku_reading(board, journal, k)
}

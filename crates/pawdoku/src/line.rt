// Puzzle lines: read into givens, and written from a board.
ghost use Rattle.std.specs.Prelude.{◌≡◌};
ghost use Rattle.lines.specs.Lines.{read_line_of, write_line_of};

use board::Board;
use record::Written;

pub fn pawdoku_read_line(line: &[u8], output: &mut [u8]) -> Written
    ensures value { result ≡ (read_line_of line.now output.old).answer }
    ensures output_after { output.new ≡ (read_line_of line.now output.old).output }
{
    lines::read_line(line, output)
}

pub fn pawdoku_write_line(board: Board, output: &mut [u8]) -> Written
    ensures value { result ≡ (write_line_of board output.old).answer }
    ensures output_after { output.new ≡ (write_line_of board output.old).output }
{
    lines::write_line(board, output)
}

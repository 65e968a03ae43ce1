// The number of a call that makes a move, out of those of its parts, for those who have asked the parts by themselves.
ghost use Rattle.std.specs.Prelude.{◌≡◌, eqb, [], ◌∷◌};
ghost use Rattle.sudoku.specs.Tests.{◌⇒◌, first};
ghost use Rattle.journal.specs.Limits.{max_moves};
ghost use Rattle.play.specs.Code.Numbers.{or_number};

use board::error::PlayError;
use journal::MAX_MOVES;

// 1 and 2, those of the move, 15. 0 where the call is accepted.
#[tactic(auto, unfolding(crate::specs::Code::Numbers::or_number, board::specs::Errors::play_number, sudoku::specs::Tests::first, sudoku::specs::Tests::pick))]
pub fn call_number(lent: u8, own: u8, standing: usize) -> u8
    ensures { result ≡ or_number lent (or_number own (first ((eqb standing max_moves ⇒ 15) ∷ []))) }
{
    if lent != 0 {
        return lent;
    }
    if own != 0 {
        return own;
    }
    if standing == MAX_MOVES {
        return PlayError::JournalFull.number();
    }
    0
}

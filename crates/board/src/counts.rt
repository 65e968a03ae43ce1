// The journal's two counts, which a board has as two fields, together: as the journal's steps take them.
ghost use Rattle.std.specs.Prelude.{◌≡◌};
ghost use Rattle.board.specs.Board.{state_of, counts_of, moved};

use crate::Board;
use journal::Counts;

impl Board {
    #[tactic(auto, unfolding(crate::specs::Board::counts_of))]
    pub fn counts(&self) -> Counts
        ensures { result ≡ counts_of self.now }
    {
        Counts {
            made: self.made,
            standing: self.standing,
        }
    }

    // Other counts; all else stays.
    #[tactic(auto, unfolding(crate::specs::Board::state_of, crate::specs::Board::board_of, crate::specs::Board::moved))]
    pub fn set_counts(&mut self, counts: Counts)
        ensures { self.new ≡ moved self.old (state_of self.old) counts }
    {
        self.made = counts.made;
        self.standing = counts.standing;
    }
}

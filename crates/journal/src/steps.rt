// The three journal steps over the two counts, made and standing: recording, taking back and retaking a move.
ghost use Rattle.std.specs.Prelude.{◌≡◌};
ghost use Rattle.journal.specs.Counts.{recorded as recorded_of, taken_back as taken_back_of, retaken as retaken_of};

use crate::{Counts, MAX_MOVES};

impl Counts {
    // Recording drops the moves after standing and adds one; where the journal is full it changes nothing.
    #[tactic(auto, unfolding(crate::specs::Counts::recorded, sudoku::specs::Tests::pick))]
    pub fn record(&mut self)
        ensures { self.new ≡ recorded_of self.old }
    {
        if self.standing >= MAX_MOVES {
            return;
        }
        let n = self.made.min(self.standing) + 1;
        self.made = n;
        self.standing = n;
    }

    // Taking back lowers standing by one; at 0 it changes nothing.
    #[tactic(auto, unfolding(crate::specs::Counts::taken_back, sudoku::specs::Tests::pick))]
    pub fn take_back(&mut self)
        ensures { self.new ≡ taken_back_of self.old }
    {
        self.standing = self.standing.saturating_sub(1);
    }

    // Retaking raises standing by one; at made or above it changes nothing.
    #[tactic(auto, unfolding(crate::specs::Counts::retaken, sudoku::specs::Tests::pick))]
    pub fn retake(&mut self)
        ensures { self.new ≡ retaken_of self.old }
    {
        if self.standing < self.made {
            self.standing += 1;
        }
    }
}

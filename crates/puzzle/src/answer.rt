// Answers of calls: refused by a number, or accepted.
ghost use Rattle.std.specs.Prelude.{◌≡◌};
ghost use Rattle.puzzle.specs.Refusals.{refusal as refusal_of, accepted as accepted_of, outcome as outcome_of};

use crate::Refusal;

// A refusal with its number, place and inner number.
pub fn refusal(number: u8, place: usize, inner: u8) -> Refusal
    ensures { result ≡ refusal_of number place inner }
{
    Refusal {
        number,
        place,
        inner,
    }
}

// Nothing is refused.
pub fn accepted() -> Refusal
    ensures { result ≡ accepted_of }
{
    refusal(0, 0, 0)
}

impl Refusal {
    // An answer as a result: Ok where nothing is refused.
    #[tactic(auto, unfolding(crate::specs::Refusals::outcome, crate::specs::Refusals::is_accepted, sudoku::specs::Tests::pick))]
    pub fn outcome(self) -> Result<(), Refusal>
        ensures { result ≡ outcome_of self }
    {
        if self.number == 0 { Ok(()) } else { Err(self) }
    }
}

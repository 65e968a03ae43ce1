// Puzzles and solutions as text: what one character says of its cell.
ghost use Rattle.std.specs.Prelude.{◌≡◌, ◌≤◌, IfSome};
ghost use Rattle.std.specs.Option.{unwrap_or};
ghost use Rattle.puzzle.specs.Text.{cell_value};

// A full stop or 0 is a blank, which is 0, and 1 to 9 a digit. Other characters are of another sort.
#[tactic(auto, unfolding(crate::specs::Text::cell_value, sudoku::specs::Tests::both, sudoku::specs::Tests::pick))]
pub fn value_of(byte: u8) -> Option<u8>
    ensures value { unwrap_or result 10 ≡ cell_value byte }
    ensures digit { IfSome result (λ digit. digit ≤ 9) }
{
    match byte {
        b'.' => Some(0),
        b'0'..=b'9' => Some(byte - b'0'),
        _ => None,
    }
}

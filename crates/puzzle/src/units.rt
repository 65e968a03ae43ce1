// Whether a digit stands twice in a unit, which is a column, a row or a box. Two entries of one column stand 9,
// 18 and so on to 72 apart, so the columns are tested by comparing the grid with itself, moved; rows and boxes
// are written as columns first. That is much faster than a walk over the peers of each cell, and says the same.
ghost use Rattle.std.specs.Prelude.{◌≡◌, ◌≤◌, get_or};
ghost use Rattle.puzzle.specs.Code.Units.{step_clear, columns_clear, reordered};

use crate::byte_at;
use sudoku::LINE;

// Whether no two entries that stand `step` apart are the same digit. A digit of 0 means none.
// The loop has no early exit and joins its tests by `|`, so that it compares many entries at once.
fn step_clear(digits: &[u8; 81], step: usize) -> bool
    requires { step ≤ 81 }
    ensures { result ≡ step_clear digits.now step }
{
    let mut clear = true;
    for (digit, other) in digits.iter().zip(&digits[step..]) {
        clear &= (*digit == 0) | (*digit != *other);
    }
    clear
}

// Whether no column of nine rows of nine holds a digit twice. With `all` it takes two fifths longer.
pub fn columns_clear(digits: &[u8; 81]) -> bool
    ensures { result ≡ columns_clear digits.now }
{
    for k in 1..LINE {
        if !step_clear(digits, LINE * k) {
            return false;
        }
    }
    true
}

// The entries in another order.
fn in_order(digits: &[u8; 81], order: &[u8; 81]) -> [u8; 81]
    ensures { result ≡ reordered (λ i. get_or order.now i 0) digits.now }
{
    std::array::from_fn(|i| byte_at(digits, usize::from(order[i])))
}

// Whether no column of the entries in another order holds a digit twice.
pub fn clear_in(digits: &[u8; 81], order: &[u8; 81]) -> bool
    ensures { result ≡ columns_clear (reordered (λ i. get_or order.now i 0) digits.now) }
{
    columns_clear(&in_order(digits, order))
}

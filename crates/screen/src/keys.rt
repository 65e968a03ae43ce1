// The keypad, as one line: each key with its digits left.
// What the definitions say is found by opening those that are named here.
#![tactic(auto, using(std::proofs::lemmas::Bool::Decides::nat_tests), unfolding(sudoku::specs::Tests::pick, crate::specs::Keys::key_part, crate::specs::Keys::key_sign, crate::specs::Keys::heading))]

ghost use Rattle.std.specs.Prelude.{◌≡◌, ◌<◌};
ghost use Rattle.screen.specs.Keys.{key_part, key_sign, keypad_of};

use crate::picture::figure;
use puzzle::digits_left;

// Two blanks, the key, a colon, and the digits left for it.
fn key_part(digits: &[u8; 81], key: u8, i: usize) -> u8
    ensures { result ≡ key_part digits.now key i }
{
    match i {
        2 => figure(key),
        3 => b':',
        4 => figure(digits_left(digits, key)),
        _ => b' ',
    }
}

// Character n of the line.
fn key_sign(digits: &[u8; 81], n: usize) -> u8
    requires { n < 57 }
    ensures { result ≡ key_sign digits.now n }
{
    if n < 11 {
        b"digits left"[n]
    } else if n == 56 {
        b'\n'
    } else {
        // by `as`: n is below 57, so the key is at most 9, and `try_from` would have a case that cannot come
        key_part(digits, ((n - 11) / 5 + 1) as u8, (n - 11) % 5)
    }
}

// The whole line.
pub fn keypad(digits: &[u8; 81]) -> [u8; 57]
    ensures { result ≡ keypad_of digits.now }
{
    std::array::from_fn(|n| key_sign(digits, n))
}

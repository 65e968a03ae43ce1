// The words of the command line, as bytes of any kind.
ghost use Rattle.std.specs.Prelude.{◌≤◌, IfSome, length};
ghost use Rattle.files.specs.Disk.{path_max};

use crate::disk::PATH_MAX;
use std::env::{Env, FillError};

// Word i, laid at the start of the memory; none where there is none, where it is empty or where it finds no room.
pub fn word<'a, R: Env>(rt: &R, i: usize, memory: &'a mut [u8; PATH_MAX]) -> Option<&'a [u8]>
    ensures { IfSome result (λ word. length word.now ≤ path_max) }
{
    match rt.arg(i, memory) {
        Ok(0) | Err(_) => None,
        Ok(length) => Some(&memory[..length]),
    }
}

// How many words there are, the program's name among them. Nothing tells their count: they end at the first number that
// has none, so each number is tried.
pub fn count<R: Env>(rt: &R) -> usize {
    let mut none = [0u8; 1];
    for i in 0..usize::MAX {
        if let Err(FillError::NotPresent) = rt.arg(i, &mut none) {
            return i;
        }
    }
    usize::MAX
}

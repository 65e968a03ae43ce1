// The console: a board played in a terminal, line by line. Thin: every answer is the library's, and the drawn board and
// the keypad's line are made in crate screen. The words around them and those of a refusal stand in crate print, what a
// command says of itself in crate commands, what is said of a file in crate files, and the console's own words here.
#![tactic(auto)]

mod arguments;
mod input;
mod start;

pub use start::run;

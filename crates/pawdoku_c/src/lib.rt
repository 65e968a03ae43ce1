// What C links: every call of the board, exported under the names of include/pawdoku.h. A board goes in and comes back
// by value; lent memory is a pointer and a length. Each function is that of crate pawdoku, and promises the same.
#![tactic(auto)]

mod asked;
mod grid;
mod line;
mod list;
mod played;
mod saved;
mod slots;
mod version;

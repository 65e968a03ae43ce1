// The demands: the book of demand 3 and the theorems about lists of play calls.
// There is no code of its own here; the calls are those that pawdoku_play runs.
#![tactic(auto)]

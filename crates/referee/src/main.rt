// Lays out a record with its solution: the puzzle, every move and check, the final board.
#![tactic(auto)]

fn main(rt: HostRuntime) {
    report::run(&rt);
}

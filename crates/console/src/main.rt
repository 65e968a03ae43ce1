// Plays a board in a terminal.
#![tactic(auto)]

fn main(rt: HostRuntime) {
    terminal::run(&rt, rt.stdin(), rt.stdout());
}

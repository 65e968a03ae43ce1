// The console, started with a puzzle file and a solution file, on lines of any length and bytes of any kind.
#![tactic(auto)]

fn main(rt: HostRuntime) {
    terminal::run(&rt, rt.stdin(), rt.stdout());
}

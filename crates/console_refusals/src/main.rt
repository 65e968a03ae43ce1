// The console, run on every refusal that a player can meet: numbers 3 to 13, 15 to 23, 25 to 33 and 35 to 37, and files
// that cannot be read or written.
#![tactic(auto)]

fn main(rt: HostRuntime) {
    terminal::run(&rt, rt.stdin(), rt.stdout());
}

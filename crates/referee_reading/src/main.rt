// The referee, run for the reading of one move.
#![tactic(auto)]

fn main(rt: HostRuntime) {
    report::run(&rt);
}

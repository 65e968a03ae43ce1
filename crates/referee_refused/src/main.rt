// The referee, run on a record that does not reopen.
#![tactic(auto)]

fn main(rt: HostRuntime) {
    report::run(&rt);
}

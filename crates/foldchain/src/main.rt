// The chain program: standard input to standard output.
#![tactic(auto)]

fn main(rt: HostRuntime) {
    driver::run(&rt, &mut rt.reader());
}

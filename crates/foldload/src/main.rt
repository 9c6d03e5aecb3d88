// The load program: standard input to standard output.
#![tactic(auto)]

fn main(rt: HostRuntime) {
    let mut input = [0u8; 65536];
    load_runs::run(&rt, &mut rt.reader(), &mut input);
}

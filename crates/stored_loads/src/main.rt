// Runs the load program on each stored file whose name is an argument.
#![tactic(auto)]

use std::rt::{Env, Files};

// Runs the file whose name is argument i.
fn run_file(rt: &(impl Env + Files + Print + Eprint), i: usize) {
    let Some(mut file) = stored_files::open(rt, i) else {
        return;
    };
    let mut input = [0u8; 65536];
    load_runs::run(rt, &mut file, &mut input);
}

fn main(rt: HostRuntime) {
    let count = stored_files::arg_count(&rt);
    for i in 1..count {
        run_file(&rt, i);
    }
}

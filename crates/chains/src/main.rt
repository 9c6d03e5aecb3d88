// Runs the chain program on each stored file whose name is an argument.
#![tactic(auto)]

fn main(rt: HostRuntime) {
    let count = stored_files::arg_count(&rt);
    for i in 1..count {
        if let Some(mut file) = stored_files::open(&rt, i) {
            driver::run(&rt, &mut file);
        }
    }
}

// Runs the points of document 02's requests on the library, and writes what it answers; the check compares that with
// `stdout`. No contract can say what is written, so the functions here promise only that they are safe and end.
#![tactic(auto)]

mod fresh_folds;
mod long_starts;
mod triangles;

use settings::Refusal;
use shown::{answers, print};

fn main(rt: HostRuntime) {
    if let Err(refusal) = points(&rt) {
        answers::refused(&rt, refusal);
    }
}

// A refusal of a setting that the points go by ends them.
fn points(rt: &impl Print) -> Result<(), Refusal> {
    print::text(rt, b"Request 1: a long start\n");
    long_starts::points(rt)?;
    print::text(rt, b"Request 2: a fresh witness\n");
    fresh_folds::points(rt)?;
    print::text(rt, b"Request 3: D~ as a lower triangle\n");
    triangles::points(rt)
}

// Runs document 01's points on the library, and writes what it answers; the check compares that with `stdout`. No
// contract can say what is written, so the functions here promise only that they are safe and end.
#![tactic(auto)]

mod entries;
mod example;
mod limits;
mod pairs;
mod wrong;

use settings::Refusal;
use shown::{answers, print};

fn main(rt: HostRuntime) {
    if let Err(refusal) = points(&rt) {
        answers::refused(&rt, refusal);
    }
}

// A refusal of a setting that the points go by ends them.
fn points(rt: &impl Print) -> Result<(), Refusal> {
    print::text(rt, b"Points to hold against\n");
    limits::points(rt);
    entries::digit_points(rt);
    entries::witness_points(rt)?;
    // The points on the fold stand at its end.
    print::text(rt, b"The fold of 7 and -5\n");
    example::fold(rt)?;
    print::text(rt, b"The house list\n");
    limits::house_list(rt);
    print::text(rt, b"Plausible and wrong\n");
    wrong::points(rt)?;
    pairs::fold(rt)
}

// Runs a `c` line of the chain program in a run state that was given a leaf count, and writes what it prints; the check
// compares that with `stdout`. No input of a size that can be read comes to the bound by itself. No contract can say
// what is written, so the functions here promise only that they are safe and end.
#![tactic(auto)]

use chain::SmallSetting;
use settings::AcceptedSetting;
use shown::print;
use states::{Due, Run, Slot, Store};

// The first fold, the last that can be counted, and one more.
fn main(rt: HostRuntime) {
    print::text(&rt, b"Request 5: leaf counts\n");
    challenged(&rt, 1);
    challenged(&rt, 4294967294);
    challenged(&rt, 4294967295);
}

// The `c` line of the printed example, with so many leaves under the accumulated node.
fn challenged(rt: &impl Print, under: u32) {
    let Ok(accepted) = AcceptedSetting::new(1, 1, 1, 2, 100) else {
        return;
    };
    let Some(small) = chain::small_setting(accepted) else {
        return;
    };
    print::number(rt, b"leaves under the accumulated node ", under as u64);
    print::text(rt, b": ");
    taken(rt, small, under);
}

// What the line prints with this setting.
fn taken(rt: &impl Print, small: SmallSetting, under: u32) {
    let mut run = Run {
        due: Due::Challenge(small),
        line: 4,
        leaves: 2,
        folds: 0,
        under,
    };
    let mut store = Store {
        a: [3; 128],
        first: Slot {
            t: [21; 16],
            d: [49; 4],
            s: [7; 32],
        },
        second: Slot {
            t: [18446744073709551601; 16],
            d: [25; 4],
            s: [-5; 32],
        },
    };
    let mut out = [0u8; 512];
    let length = runs::take(
        &mut run,
        b"c\t1\t1\t1\t0\t0\t-1\t0\t-1\t0\t0",
        &mut store,
        &mut out,
    );
    print::text(rt, &out[..length]);
}

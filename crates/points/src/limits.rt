// The points about settings: the constructor and the house list.
use settings::Setting;
use shown::{answers, print};

const FOUR_TO_24: u64 = 281474976710656;

const FOUR_TO_15: u64 = 1073741824;

pub(crate) fn points(rt: &impl Print) {
    answers::asked(rt, 1, 1, 1, 2, 100);
    answers::asked(rt, 1, 1, 1, 2, 99);
    answers::asked(rt, 1, 4096, 1, 2, FOUR_TO_24 - 1);
    answers::asked(rt, 1, 4096, 1, 2, FOUR_TO_24);
    answers::asked(rt, 1, 1, 16, 2, FOUR_TO_15);
    // Growth just holds, and width does not. With one row more growth fails too; with B one less k is 3, and both hold.
    answers::asked(rt, 16, 256, 2, 128, 268435456);
    answers::asked(rt, 16, 257, 2, 128, 268435456);
    answers::asked(rt, 16, 256, 2, 128, 268435455);
}

// Asks the house list: the setting that it gives, for which zeros stand beside a refusal, and the answer.
fn listed(rt: &impl Print, number: usize) {
    let given = Setting::listed(number);
    print::number(rt, b"house list ", number);
    print::text(rt, b": ");
    match given {
        Ok(setting) => answers::five(
            rt,
            setting.n,
            setting.m,
            setting.t,
            setting.b,
            setting.bound,
        ),
        Err(_) => answers::five(rt, 0, 0, 0, 0, 0),
    }
    answers::checked(rt, given);
}

pub(crate) fn house_list(rt: &impl Print) {
    for number in 0..6 {
        listed(rt, number);
    }
}

// A fold with two columns, in the setting (1, 1, 2, 5, 576): k = 3, N = 12, and D~ is the 78 entries of its lower
// triangle. With a D1 or D2 that is not symmetric no D~ is left that the first equation could hold for: norm. Outputs
// hold 111, -222 or -333 before.
use lova::{Instance, Message, Profile};
use settings::{Refusal, Setting};
use shown::{lines, print};

const A: [u64; 1] = [10418741240780317654];

const C: [u8; 24] = [
    0, 0, 1, 2, 0, 0, 0, 1, 0, 0, 2, 0, 2, 0, 2, 0, 2, 2, 1, 1, 0, 0, 2, 2,
];

pub(crate) fn points(rt: &impl Print) -> Result<(), Refusal> {
    let setting = Setting::new(1, 1, 2, 5, 576)?;
    fold(rt, setting, [7, 22], [23, -24]);
    Ok(())
}

fn fold(rt: &impl Print, setting: Setting, s1: [i64; 2], s2: [i64; 2]) {
    let first = lines::committed::<2, 4>(rt, setting, Profile::General, &A, &s1);
    let second = lines::committed::<2, 4>(rt, setting, Profile::General, &A, &s2);
    message(rt, setting, &s1, &s2, first.lent(), second.lent());
}

// The message, and the verdicts on it.
fn message(
    rt: &impl Print,
    setting: Setting,
    s1: &[i64],
    s2: &[i64],
    first: Instance,
    second: Instance,
) {
    let made = lines::prepared::<4, 12, 78, 12>(rt, setting, Profile::General, &A, s1, s2);
    print::words(rt, b"D~:", &made.dd);
    print::end(rt);
    verdicts(rt, setting, first, second, made.lent());
}

// As they are, with D1 and with D2 not symmetric, and with D~ as a square and one entry short.
fn verdicts(
    rt: &impl Print,
    setting: Setting,
    first: Instance,
    second: Instance,
    message: Message,
) {
    let skew1 = Instance {
        d: &[49, 1, 154, 484],
        ..first
    };
    let skew2 = Instance {
        d: &[529, 1, -552, 576],
        ..second
    };
    let square = Message {
        dd: &[0; 144],
        ..message
    };
    let short = Message {
        dd: &[0; 77],
        ..message
    };
    judged(rt, setting, first, second, message);
    judged(rt, setting, skew1, second, message);
    judged(rt, setting, first, skew2, message);
    judged(rt, setting, first, second, square);
    judged(rt, setting, first, second, short);
}

fn judged(rt: &impl Print, setting: Setting, first: Instance, second: Instance, message: Message) {
    let mut t = [111u64; 2];
    let mut d = [-222i64; 4];
    print::words(rt, b"fold, D1:", first.d);
    print::words(rt, b", D2:", second.d);
    lines::verdict(
        rt,
        setting,
        Profile::General,
        first,
        second,
        message,
        &C,
        &mut t,
        &mut d,
    );
}

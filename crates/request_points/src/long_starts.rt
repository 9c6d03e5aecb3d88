// Starts that are too long, in Setting 1 with A = 3. 11 is within B = 121, where k and N are those of Setting 1: its
// instance and its message are made there, and judged by another B. Outputs hold 111, -222 or -333 before.
use lova::{Instance, Message, Profile};
use settings::{Refusal, Setting};
use shown::{lines, print};

const A: [u64; 1] = [3];

const C: [u8; 10] = [1, 1, 1, 0, 0, 2, 0, 2, 0, 0];

// 11 as the first and as the second witness, and 10, whose D is the B of Setting 1.
pub(crate) fn points(rt: &impl Print) -> Result<(), Refusal> {
    fold(rt, [11], [-5])?;
    fold(rt, [7], [11])?;
    fold(rt, [10], [-10])
}

// Setting 1 with another B.
fn bounded(bound: u64) -> Result<Setting, Refusal> {
    Setting::new(1, 1, 1, 2, bound)
}

fn fold(rt: &impl Print, s1: [i64; 1], s2: [i64; 1]) -> Result<(), Refusal> {
    let setting = bounded(121)?;
    let first = lines::committed::<1, 1>(rt, setting, Profile::General, &A, &s1);
    let second = lines::committed::<1, 1>(rt, setting, Profile::General, &A, &s2);
    message(rt, setting, &s1, &s2, first.lent(), second.lent())
}

// The message, and the verdicts on it.
fn message(
    rt: &impl Print,
    setting: Setting,
    s1: &[i64],
    s2: &[i64],
    first: Instance,
    second: Instance,
) -> Result<(), Refusal> {
    let made = lines::prepared::<1, 10, 55, 10>(rt, setting, Profile::General, &A, s1, s2);
    verdicts(rt, first, second, made.lent(), made.dd)
}

// With another D1 the first equation fails, so that a long one could be called norm; 10 and 9 come before long.
fn verdicts(
    rt: &impl Print,
    first: Instance,
    second: Instance,
    message: Message,
    dd: [i64; 55],
) -> Result<(), Refusal> {
    for bound in [100, 120, 121] {
        judged(rt, bound, first, second, message)?;
    }
    let setting = bounded(100)?;
    for start in [99, 101, -101] {
        other(rt, setting, first, start, second, message, dd, 0, 0);
    }
    other(rt, setting, first, 101, second, message, dd, 2, 0);
    other(rt, setting, first, 101, second, message, dd, 2, 3);
    Ok(())
}

// The verdict by this B.
fn judged(
    rt: &impl Print,
    bound: u64,
    first: Instance,
    second: Instance,
    message: Message,
) -> Result<(), Refusal> {
    let setting = bounded(bound)?;
    let mut t = [111u64; 1];
    let mut d = [-222i64; 1];
    print::number(rt, b"fold by B = ", bound);
    lines::verdict(
        rt,
        setting,
        Profile::General,
        first,
        second,
        message,
        &C,
        &mut t,
        &mut d,
    );
    Ok(())
}

// The verdict with another D1.
fn other(
    rt: &impl Print,
    setting: Setting,
    first: Instance,
    start: i64,
    second: Instance,
    message: Message,
    dd: [i64; 55],
    last: i64,
    byte: u8,
) {
    let d1 = [start];
    print::number(rt, b"D1 is ", start);
    print::text(rt, b", ");
    let first = Instance { d: &d1, ..first };
    lines::spoiled(rt, setting, first, second, message, dd, last, byte);
}

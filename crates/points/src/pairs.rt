// A fold at t = 2, where what is plausible and wrong shows, since columns and powers, and V and its transpose, differ:
// k = 4, N = 16, h = 1, H = 2. Outputs hold 111, -222 or -333 before.
use lova::{Instance, Message, Profile};
use settings::{Refusal, Setting};
use shown::{answers, lines, print};

const A: [u64; 2] = [3, 18446744073709551615];

const S1: [i64; 4] = [5, -7, 1, 4];

const S2: [i64; 4] = [2, 0, -3, 8];

// All three values, at no regular distance.
const C: [u8; 32] = [
    1, 2, 2, 0, 2, 2, 2, 2, 2, 2, 0, 2, 2, 2, 2, 2, 2, 1, 2, 2, 2, 2, 2, 2, 2, 2, 2, 2, 1, 2, 2, 2,
];

pub(crate) fn fold(rt: &impl Print) -> Result<(), Refusal> {
    answers::asked(rt, 1, 2, 2, 3, 512);
    let pair = Setting::new(1, 2, 2, 3, 512)?;
    let first = lines::committed::<2, 4>(rt, pair, Profile::General, &A, &S1);
    let second = lines::committed::<2, 4>(rt, pair, Profile::General, &A, &S2);
    message(rt, pair, first.lent(), second.lent());
    Ok(())
}

// The message, and what the verifier makes of it, to which all is lent as in the printed fold.
fn message(rt: &impl Print, setting: Setting, first: Instance, second: Instance) {
    let made = lines::prepared::<4, 16, 136, 32>(rt, setting, Profile::General, &A, &S1, &S2);
    joined(rt, setting, first, second, &made.v);
    let honest = made.dd;
    let message = made.lent();
    lines::folded::<2, 4, 4>(rt, setting, &A, first, second, message, &made.ss, &C);
    turned(rt, setting, first, second, message);
    too_large(rt, setting, first, second, message, honest);
}

// V stands in the upper right of D, and its transpose in the lower left.
fn joined(rt: &impl Print, setting: Setting, first: Instance, second: Instance, v: &[i64]) {
    let mut t = [111u64; 4];
    let mut d = [-222i64; 16];
    let given = joins::join(setting, Profile::General, first, second, v, &mut t, &mut d);
    lines::join(rt, given, &t, &d);
}

// The verdict by a C of zeros, which leaves T' and D' as they are.
fn refused(rt: &impl Print, setting: Setting, first: Instance, second: Instance, message: Message) {
    let mut t = [111u64; 2];
    let mut d = [-222i64; 4];
    lines::verdict(
        rt,
        setting,
        Profile::General,
        first,
        second,
        message,
        &[0; 32],
        &mut t,
        &mut d,
    );
}

// A message with V transposed.
fn turned(rt: &impl Print, setting: Setting, first: Instance, second: Instance, message: Message) {
    let v = [7, -26, 8, 32];
    print::text(rt, b"V transposed");
    refused(rt, setting, first, second, Message { v: &v, ..message });
}

// A message with an entry of D~ above H. The honest entry is H, which is above h^2.
fn too_large(
    rt: &impl Print,
    setting: Setting,
    first: Instance,
    second: Instance,
    message: Message,
    mut dd: [i64; 136],
) {
    print::number(rt, b"3 for the entry of D~ that is ", dd[0]);
    dd[0] = 3;
    refused(rt, setting, first, second, Message { dd: &dd, ..message });
}

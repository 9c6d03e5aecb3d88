// A fold whose second witness is the one vector FRESH, at house 2, beside the general fold of that vector repeated:
// join, T', D' and S' are the same. k = 4, N = 16, and a fresh S~ has 12 columns. Outputs hold 111, -222 or -333
// before.
use lova::{Instance, Message, Profile};
use settings::{Refusal, Setting};
use shown::{lines, print};

const A: [u64; 64] = [
    0, 1, 1, 5, 2, 4294967295, 4, 9, 3, 9, 0, 9, 2, 6, 6, 8, 5, 8, 7, 8, 4, 0, 0, 5, 7, 5, 6, 6, 8,
    2, 8, 2, 3, 3, 0, 2, 5, 2, 4294967296, 8, 8, 5, 8, 8, 2, 7, 6, 8, 5, 9, 5, 5, 7, 2, 6, 7, 8, 3,
    7, 4, 7, 8, 8, 5,
];

const S1: [i64; 32] = [
    70, 17, 19, -10, 46, 86, 43, 86, 17, 25, 69, -43, -16, 80, -57, 58, -31, 98, 23, -20, -22, 81,
    30, 44, 33, 30, 67, 58, 51, 5, -20, 88,
];

// FRESH, twice.
const REPEATED: [i64; 32] = [
    -46, -46, 26, 26, 32, 32, -6, -6, 76, 76, 60, 60, -80, -80, -12, -12, 86, 86, -97, -97, -51,
    -51, 91, 91, -72, -72, -84, -84, 48, 48, 68, 68,
];

const FRESH: [i64; 16] = [
    -46, 26, 32, -6, 76, 60, -80, -12, 86, -97, -51, 91, -72, -84, 48, 68,
];

const C: [u8; 32] = [
    0, 1, 2, 0, 2, 0, 2, 0, 1, 0, 0, 0, 1, 2, 0, 0, 1, 1, 0, 0, 2, 0, 0, 0, 0, 0, 0, 2, 0, 1, 1, 0,
];

pub(crate) fn points(rt: &impl Print) -> Result<(), Refusal> {
    let house = Setting::listed(2)?;
    let first = lines::committed::<8, 4>(rt, house, Profile::General, &A, &S1);
    print::text(rt, b"the vector repeated\n");
    general(rt, house, first.lent());
    print::text(rt, b"the fresh vector\n");
    fresh(rt, house, first.lent());
    print::text(rt, b"general lengths in fresh calls\n");
    lengths(rt, house, first.lent());
    Ok(())
}

fn general(rt: &impl Print, house: Setting, first: Instance) {
    let second = lines::committed::<8, 4>(rt, house, Profile::General, &A, &REPEATED);
    let made = lines::prepared::<4, 64, 136, 256>(rt, house, Profile::General, &A, &S1, &REPEATED);
    folded(
        rt,
        house,
        Profile::General,
        first,
        second.lent(),
        made.lent(),
        &made.ss,
    );
}

fn fresh(rt: &impl Print, house: Setting, first: Instance) {
    let second = lines::committed::<4, 1>(rt, house, Profile::Fresh, &A, &FRESH);
    let made = lines::prepared::<2, 48, 78, 192>(rt, house, Profile::Fresh, &A, &S1, &FRESH);
    folded(
        rt,
        house,
        Profile::Fresh,
        first,
        second.lent(),
        made.lent(),
        &made.ss,
    );
}

// Join, the fold by C, and its end.
fn folded(
    rt: &impl Print,
    house: Setting,
    profile: Profile,
    first: Instance,
    second: Instance,
    message: Message,
    ss: &[i64],
) {
    let mut t = [111u64; 8];
    let mut d = [-222i64; 4];
    let mut s = [-333i64; 32];
    joined(rt, house, profile, first, second, message.v);
    print::text(rt, b"fold");
    lines::verdict(
        rt, house, profile, first, second, message, &C, &mut t, &mut d,
    );
    lines::folded_witness(rt, house, profile, ss, &C, &mut s);
    lines::relation_test(rt, house, &A, &t, &d, &s);
}

fn joined(
    rt: &impl Print,
    house: Setting,
    profile: Profile,
    first: Instance,
    second: Instance,
    v: &[i64],
) {
    let mut t = [111u64; 16];
    let mut d = [-222i64; 16];
    let given = joins::join(house, profile, first, second, v, &mut t, &mut d);
    lines::join(rt, given, &t, &d);
}

// The length that a general call has, of v, S~, D2, V and D~ in turn, in a fresh call: 7.
fn lengths(rt: &impl Print, house: Setting, first: Instance) {
    let mut s = [-333i64; 32];
    let _ = lines::committed::<4, 1>(rt, house, Profile::Fresh, &A, &REPEATED);
    lines::folded_witness(rt, house, Profile::Fresh, &[0; 256], &C, &mut s);
    judged(rt, house, first, &[0; 4], &[0; 2], &[0; 78]);
    judged(rt, house, first, &[0; 1], &[0; 4], &[0; 78]);
    judged(rt, house, first, &[0; 1], &[0; 2], &[0; 136]);
}

// The fresh verdict on these, with zeros for T2 and T~ of the lengths that it asks for.
fn judged(rt: &impl Print, house: Setting, first: Instance, d2: &[i64], v: &[i64], dd: &[i64]) {
    let mut t = [111u64; 8];
    let mut d = [-222i64; 4];
    let second = Instance {
        t: &[0; 4],
        d: d2,
        leaves: 1,
    };
    let message = Message {
        v,
        tt: &[0; 48],
        dd,
    };
    print::text(rt, b"fold");
    lines::verdict(
        rt,
        house,
        Profile::Fresh,
        first,
        second,
        message,
        &C,
        &mut t,
        &mut d,
    );
}

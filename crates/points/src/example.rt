// Document 01's fold: Setting 1 with A = 3, witnesses 7 and -5. Outputs hold 111, -222 or -333 before.
use lova::{Instance, Profile};
use settings::{Refusal, Setting};
use shown::lines;

const A: [u64; 1] = [3];

const S1: [i64; 1] = [7];

const S2: [i64; 1] = [-5];

const C: [u8; 10] = [1, 1, 1, 0, 0, 2, 0, 2, 0, 0];

// Commits to one entry, by one entry of A.
pub(crate) fn commit(rt: &impl Print, setting: Setting, a: u64, s: i64) {
    let _ = lines::committed::<1, 1>(rt, setting, Profile::General, &[a], &[s]);
}

pub(crate) fn fold(rt: &impl Print) -> Result<(), Refusal> {
    let one = Setting::listed(1)?;
    let first = lines::committed::<1, 1>(rt, one, Profile::General, &A, &S1);
    let second = lines::committed::<1, 1>(rt, one, Profile::General, &A, &S2);
    message(rt, one, first.lent(), second.lent());
    Ok(())
}

// The message, and the verdicts on it.
fn message(rt: &impl Print, setting: Setting, first: Instance, second: Instance) {
    let made = lines::prepared::<1, 10, 55, 10>(rt, setting, Profile::General, &A, &S1, &S2);
    let honest = made.dd;
    let message = made.lent();
    lines::folded::<1, 1, 1>(rt, setting, &A, first, second, message, &made.ss, &C);
    lines::spoiled(rt, setting, first, second, message, honest, 0, 0);
    lines::spoiled(rt, setting, first, second, message, honest, 2, 0);
    lines::spoiled(rt, setting, first, second, message, honest, 2, 3);
}

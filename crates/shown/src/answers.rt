// How settings and answers are written.
use super::print;
use lova::{Membership, Verdict};
use settings::{Refusal, Setting};

// The five numbers of a setting.
pub fn five(rt: &impl Print, n: usize, m: usize, t: usize, b: u64, bound: u64) {
    let _ = print!(rt; "Setting ({n}, {m}, {t}, {b}, {bound})");
}

pub fn refused(rt: &impl Print, refusal: Refusal) {
    print::number(rt, b": refused ", refusal.number());
}

// The answer of the constructor or of the house list, which ends its line.
pub fn checked(rt: &impl Print, given: Result<Setting, Refusal>) {
    match given {
        Ok(setting) => {
            print::number(rt, b": accepted, k = ", setting.k);
            print::number(rt, b", N = ", setting.columns);
        }
        Err(refusal) => refused(rt, refusal),
    }
    print::end(rt);
}

// Asks for a setting: the five numbers and the answer.
pub fn asked(rt: &impl Print, n: usize, m: usize, t: usize, b: u64, bound: u64) {
    five(rt, n, m, t, b, bound);
    checked(rt, Setting::new(n, m, t, b, bound));
}

// The answer of message or folded witness.
pub fn answer(rt: &impl Print, given: Result<(), Refusal>) {
    match given {
        Ok(()) => print::text(rt, b": done"),
        Err(refusal) => refused(rt, refusal),
    }
}

// The answer of commit or join.
pub fn made(rt: &impl Print, given: Result<u32, Refusal>) {
    match given {
        Ok(leaves) => print::number(rt, b": done, leaves: ", leaves),
        Err(refusal) => refused(rt, refusal),
    }
}

pub fn verdict(rt: &impl Print, given: Result<Verdict, Refusal>) {
    match given {
        Ok(Verdict::Yes(leaves)) => print::number(rt, b": yes, leaves: ", leaves),
        Ok(Verdict::Long) => print::text(rt, b": long"),
        Ok(Verdict::Norm) => print::text(rt, b": norm"),
        Ok(Verdict::Commitment) => print::text(rt, b": commitment"),
        Err(refusal) => refused(rt, refusal),
    }
}

pub fn membership(rt: &impl Print, given: Result<Membership, Refusal>) {
    match given {
        Ok(Membership::Member) => print::text(rt, b": member"),
        Ok(Membership::Long) => print::text(rt, b": long"),
        Ok(Membership::Products) => print::text(rt, b": products"),
        Ok(Membership::Commitment) => print::text(rt, b": commitment"),
        Err(refusal) => refused(rt, refusal),
    }
}

// The line of each operation: what it answered, and what its outputs hold then. What both folds call is run here,
// and each function is lent what its operation is. Join is run by the functions that hold its outputs, since a
// function that is lent many outputs takes long to check.
ghost use Rattle.std.specs.Prelude.{◌<◌, ◌^◌};

use super::{answers, print};
use lova::{Instance, Message, Profile};
use settings::{Refusal, Setting};

// T and D, which end their line.
fn instance(rt: &impl Print, t: &[u64], d: &[i64]) {
    print::words(rt, b", T:", t);
    print::words(rt, b", D:", d);
    print::end(rt);
}

pub fn digits(rt: &impl Print, x: i64, b: u64, out: &[i64]) {
    print::number(rt, b"b = ", b);
    print::number(rt, b", k = ", out.len());
    print::number(rt, b": ", x);
    print::words(rt, b" is", out);
    print::end(rt);
}

// An instance as commit writes it: T and D.
#[derive(Clone, Copy)]
pub struct CommittedInstance<const T: usize, const D: usize> {
    t: [u64; T],
    d: [i64; D],
}

impl<const T: usize, const D: usize> CommittedInstance<T, D> {
    // As it is lent: one leaf is under it.
    pub fn lent(&self) -> Instance {
        Instance {
            t: &self.t,
            d: &self.d,
            leaves: 1,
        }
    }
}

// Commits to s, where the outputs hold 111 and -222 before.
pub fn committed<const T: usize, const D: usize>(
    rt: &impl Print,
    setting: Setting,
    profile: Profile,
    a: &[u64],
    s: &[i64],
) -> CommittedInstance<T, D> {
    let mut t = [111u64; T];
    let mut d = [-222i64; D];
    print::words(rt, b"commit, A:", a);
    print::words(rt, b", S:", s);
    answers::made(
        rt,
        commitments::commit(setting, profile, a, s, &mut t, &mut d),
    );
    instance(rt, &t, &d);
    CommittedInstance { t, d }
}

// What the message operation writes: V, T~, D~ and S~.
#[derive(Clone, Copy)]
pub struct PreparedMessage<const V: usize, const TT: usize, const DD: usize, const SS: usize> {
    pub v: [i64; V],
    pub tt: [u64; TT],
    pub dd: [i64; DD],
    pub ss: [i64; SS],
}

impl<const V: usize, const TT: usize, const DD: usize, const SS: usize> PreparedMessage<
    V,
    TT,
    DD,
    SS,
> {
    // The message as it is lent.
    pub fn lent(&self) -> Message {
        Message {
            v: &self.v,
            tt: &self.tt,
            dd: &self.dd,
        }
    }
}

// The message of two witnesses, where the outputs hold 111, -222 and -333 before.
pub fn prepared<const V: usize, const TT: usize, const DD: usize, const SS: usize>(
    rt: &impl Print,
    setting: Setting,
    profile: Profile,
    a: &[u64],
    s1: &[i64],
    s2: &[i64],
) -> PreparedMessage<V, TT, DD, SS> {
    let mut v = [-222i64; V];
    let mut tt = [111u64; TT];
    let mut dd = [-222i64; DD];
    let mut ss = [-333i64; SS];
    let given = messages::message(
        setting, profile, a, s1, s2, &mut v, &mut tt, &mut dd, &mut ss,
    );
    print::text(rt, b"message");
    answers::answer(rt, given);
    print::words(rt, b", V:", &v);
    print::words(rt, b", T~:", &tt);
    print::words(rt, b", S~:", &ss);
    print::end(rt);
    PreparedMessage { v, tt, dd, ss }
}

pub fn join(rt: &impl Print, given: Result<u32, Refusal>, t: &[u64], d: &[i64]) {
    print::text(rt, b"join");
    answers::made(rt, given);
    instance(rt, t, d);
}

// The caller writes what is judged, at the start of the line.
pub fn verdict(
    rt: &impl Print,
    setting: Setting,
    profile: Profile,
    first: Instance,
    second: Instance,
    message: Message,
    c: &[u8],
    t: &mut [u64],
    d: &mut [i64],
) {
    let given = verdicts::verify(setting, profile, first, second, message, c, t, d);
    answers::verdict(rt, given);
    instance(rt, t, d);
}

// The verdict in a setting like the first, with another last entry of D~ (an honest one is 0) and a C of zeros but its
// last byte.
pub fn spoiled(
    rt: &impl Print,
    setting: Setting,
    first: Instance,
    second: Instance,
    message: Message,
    mut dd: [i64; 55],
    last: i64,
    byte: u8,
) {
    print::number(rt, b"D~ ends in ", last);
    print::number(rt, b" and C in ", byte);
    dd[54] = last;
    let mut c = [0u8; 10];
    c[9] = byte;
    let mut t = [111u64; 1];
    let mut d = [-222i64; 1];
    let message = Message { dd: &dd, ..message };
    verdict(
        rt,
        setting,
        Profile::General,
        first,
        second,
        message,
        &c,
        &mut t,
        &mut d,
    );
}

// The fold by a general challenge, and its end, where the outputs hold 111, -222 and -333 before.
pub fn folded<const T: usize, const D: usize, const S: usize>(
    rt: &impl Print,
    setting: Setting,
    a: &[u64],
    first: Instance,
    second: Instance,
    message: Message,
    ss: &[i64],
    c: &[u8],
)
    requires { (T < 2 ^ 16) × (D < 2 ^ 16) × (S < 2 ^ 16) }
{
    let mut t = [111u64; T];
    let mut d = [-222i64; D];
    let mut s = [-333i64; S];
    print::text(rt, b"fold");
    verdict(
        rt,
        setting,
        Profile::General,
        first,
        second,
        message,
        c,
        &mut t,
        &mut d,
    );
    folded_witness(rt, setting, Profile::General, ss, c, &mut s);
    relation_test(rt, setting, a, &t, &d, &s);
}

pub fn folded_witness(
    rt: &impl Print,
    setting: Setting,
    profile: Profile,
    ss: &[i64],
    c: &[u8],
    s: &mut [i64],
) {
    print::text(rt, b"folded witness");
    answers::answer(rt, witnesses::fold_witness(setting, profile, ss, c, s));
    print::words(rt, b", S':", s);
    print::end(rt);
}

pub fn relation_test(
    rt: &impl Print,
    setting: Setting,
    a: &[u64],
    t: &[u64],
    d: &[i64],
    s: &[i64],
) {
    print::words(rt, b"relation test, S:", s);
    answers::membership(rt, relations::test_relation(setting, a, t, d, s));
    print::end(rt);
}

// The verifier's operations for C with a fresh second instance. They are those of `verifier_c` but for the profile, and
// stand in a crate of their own so that the compiler makes each of them for its profile.
#![tactic(auto)]

ghost use Rattle.std.specs.Prelude.{◌≡◌};
ghost use Rattle.settings.specs.HouseList.{parameters};
ghost use Rattle.lova.specs.declared.Profile.TheVariants.{Fresh};
ghost use Rattle.lova.specs.Stored.{counted};
ghost use Rattle.lova.specs.Lent.{as_instance, as_message};
ghost use Rattle.lova.specs.Join.{join_in};
ghost use Rattle.lova.specs.Verdict.{verdict_in};
ghost use Rattle.codes.specs.Codes.{returned, coded, placed};

use lova::{Instance, Message, Profile};

// Join: writes [T1 T2] and [D1 V; V-transposed D2], the one column of T2, V and D2 t times, and the sum of the leaf
// counts. Refusals 1 to 7 and 15.
#[unsafe(no_mangle)]
pub extern "C" fn lova_join_fresh(
    n: u64,
    m: u64,
    t: u64,
    b: u64,
    bound: u64,
    t1: &[u64],
    d1: &[i64],
    leaves1: u32,
    t2: &[u64],
    d2: &[i64],
    leaves2: u32,
    v: &[i64],
    t_out: &mut [u64],
    d_out: &mut [i64],
    leaves_out: &mut u32,
) -> u8
    ensures { returned result (counted (as_instance t_out.new d_out.new) leaves_out.new)
        ≡ coded (placed leaves_out.old (join_in (parameters n m t b bound) Fresh
        (counted (as_instance t1.now d1.now) leaves1) (counted (as_instance t2.now d2.now) leaves2) v.now
        (as_instance t_out.old d_out.old))) }
{
    let setting = codes::setting_of(n, m, t, b, bound);
    let first = Instance {
        t: t1,
        d: d1,
        leaves: leaves1,
    };
    let second = Instance {
        t: t2,
        d: d2,
        leaves: leaves2,
    };
    let made = joins::join(setting, Profile::Fresh, first, second, v, t_out, d_out);
    *leaves_out = codes::count_of_made(made, *leaves_out);
    codes::code_of_answer(made)
}

// Verify: the verdict on a message; on yes it writes T', D' and the sum of the leaf counts, on every other verdict the
// count 0. Refusals 1 to 7, 15, 9 and 10.
#[unsafe(no_mangle)]
pub extern "C" fn lova_verify_fresh(
    n: u64,
    m: u64,
    t: u64,
    b: u64,
    bound: u64,
    t1: &[u64],
    d1: &[i64],
    leaves1: u32,
    t2: &[u64],
    d2: &[i64],
    leaves2: u32,
    v: &[i64],
    tt: &[u64],
    dd: &[i64],
    c: &[u8],
    t_out: &mut [u64],
    d_out: &mut [i64],
    leaves_out: &mut u32,
) -> u8
    ensures { returned result (counted (as_instance t_out.new d_out.new) leaves_out.new)
        ≡ coded (placed leaves_out.old (verdict_in (parameters n m t b bound) Fresh
        (counted (as_instance t1.now d1.now) leaves1) (counted (as_instance t2.now d2.now) leaves2)
        (as_message v.now tt.now dd.now) c.now (as_instance t_out.old d_out.old))) }
{
    let setting = codes::setting_of(n, m, t, b, bound);
    let first = Instance {
        t: t1,
        d: d1,
        leaves: leaves1,
    };
    let second = Instance {
        t: t2,
        d: d2,
        leaves: leaves2,
    };
    let message = Message { v, tt, dd };
    let verdict = verdicts::verify(
        setting,
        Profile::Fresh,
        first,
        second,
        message,
        c,
        t_out,
        d_out,
    );
    *leaves_out = codes::count_of_verdict(verdict, *leaves_out);
    codes::code_of_verdict(verdict)
}

// The verifier's operations and the relation test for C. A setting is its five numbers n, m, t, b and bound; each
// function returns a code. `include/lova.h` declares them, beside those of `prover_c` and `settings_c`; those with a
// fresh second instance stand in `verifier_fresh_c`.
#![tactic(auto)]

ghost use Rattle.std.specs.Prelude.{◌≡◌};
ghost use Rattle.settings.specs.HouseList.{parameters};
ghost use Rattle.lova.specs.Stored.{counted};
ghost use Rattle.lova.specs.Lent.{as_instance, as_message};
ghost use Rattle.lova.specs.Join.{join};
ghost use Rattle.lova.specs.Verdict.{verdict};
ghost use Rattle.lova.specs.Relation.{relation};
ghost use Rattle.codes.specs.Codes.{code_of, returned, coded, placed};

use lova::{Instance, Message, Profile};

// Join: writes [T1 T2], [D1 V; V-transposed D2] and the sum of the leaf counts. Refusals 1 to 7 and 15.
#[unsafe(no_mangle)]
pub extern "C" fn lova_join(
    n: u64,
    m: u64,
    t: u64,
    b: u64,
    bound: u64,
    t1: &[u64],
    d1: &[i64],
    leaves1: u32,
    t2: &[u64],
    d2: &[i64],
    leaves2: u32,
    v: &[i64],
    t_out: &mut [u64],
    d_out: &mut [i64],
    leaves_out: &mut u32,
) -> u8
    ensures { returned result (counted (as_instance t_out.new d_out.new) leaves_out.new)
        ≡ coded (placed leaves_out.old (join (parameters n m t b bound)
        (counted (as_instance t1.now d1.now) leaves1) (counted (as_instance t2.now d2.now) leaves2) v.now
        (as_instance t_out.old d_out.old))) }
{
    let setting = codes::setting_of(n, m, t, b, bound);
    let first = Instance {
        t: t1,
        d: d1,
        leaves: leaves1,
    };
    let second = Instance {
        t: t2,
        d: d2,
        leaves: leaves2,
    };
    let made = joins::join(setting, Profile::General, first, second, v, t_out, d_out);
    *leaves_out = codes::count_of_made(made, *leaves_out);
    codes::code_of_answer(made)
}

// Verify: the verdict on a message; on yes it writes T', D' and the sum of the leaf counts, on every other verdict the
// count 0. Refusals 1 to 7, 15, 9 and 10.
#[unsafe(no_mangle)]
pub extern "C" fn lova_verify(
    n: u64,
    m: u64,
    t: u64,
    b: u64,
    bound: u64,
    t1: &[u64],
    d1: &[i64],
    leaves1: u32,
    t2: &[u64],
    d2: &[i64],
    leaves2: u32,
    v: &[i64],
    tt: &[u64],
    dd: &[i64],
    c: &[u8],
    t_out: &mut [u64],
    d_out: &mut [i64],
    leaves_out: &mut u32,
) -> u8
    ensures { returned result (counted (as_instance t_out.new d_out.new) leaves_out.new)
        ≡ coded (placed leaves_out.old (verdict (parameters n m t b bound)
        (counted (as_instance t1.now d1.now) leaves1) (counted (as_instance t2.now d2.now) leaves2)
        (as_message v.now tt.now dd.now) c.now (as_instance t_out.old d_out.old))) }
{
    let setting = codes::setting_of(n, m, t, b, bound);
    let first = Instance {
        t: t1,
        d: d1,
        leaves: leaves1,
    };
    let second = Instance {
        t: t2,
        d: d2,
        leaves: leaves2,
    };
    let message = Message { v, tt, dd };
    let verdict = verdicts::verify(
        setting,
        Profile::General,
        first,
        second,
        message,
        c,
        t_out,
        d_out,
    );
    *leaves_out = codes::count_of_verdict(verdict, *leaves_out);
    codes::code_of_verdict(verdict)
}

// The relation test: whether S is a witness of the instance T, D. Refusals 1 to 7.
#[unsafe(no_mangle)]
pub extern "C" fn lova_test_relation(
    n: u64,
    m: u64,
    t: u64,
    b: u64,
    bound: u64,
    a: &[u64],
    t_in: &[u64],
    d_in: &[i64],
    s: &[i64],
) -> u8
    ensures { result
        ≡ code_of (relation (parameters n m t b bound) a.now (as_instance t_in.now d_in.now)
        s.now).answer }
{
    let setting = codes::setting_of(n, m, t, b, bound);
    let membership = relations::test_relation(setting, a, t_in, d_in, s);
    codes::code_of_membership(membership)
}

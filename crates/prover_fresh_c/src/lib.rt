// The prover's operations for C with a fresh second witness: one vector that stands for t equal columns. They are those
// of `prover_c` but for the profile, and stand in a crate of their own so that the compiler makes each of them for its
// profile.
#![tactic(auto)]

ghost use Rattle.std.specs.Prelude.{◌≡◌};
ghost use Rattle.settings.specs.HouseList.{parameters};
ghost use Rattle.lova.specs.declared.Profile.TheVariants.{Fresh};
ghost use Rattle.lova.specs.Stored.{counted};
ghost use Rattle.lova.specs.Lent.{as_instance, as_prepared};
ghost use Rattle.lova.specs.Commit.{commit_in};
ghost use Rattle.lova.specs.Message.{message_in};
ghost use Rattle.lova.specs.Witness.{witness_in};
ghost use Rattle.codes.specs.Codes.{returned, coded, placed};

use lova::Profile;

// Commit: writes T and D of the vector s, and the leaf count 1. Refusals 1 to 8.
#[unsafe(no_mangle)]
pub extern "C" fn lova_commit_fresh(
    n: u64,
    m: u64,
    t: u64,
    b: u64,
    bound: u64,
    a: &[u64],
    s: &[i64],
    t_out: &mut [u64],
    d_out: &mut [i64],
    leaves_out: &mut u32,
) -> u8
    ensures { returned result (counted (as_instance t_out.new d_out.new) leaves_out.new)
        ≡ coded (placed leaves_out.old (commit_in (parameters n m t b bound) Fresh a.now
        s.now (as_instance t_out.old d_out.old))) }
{
    let setting = codes::setting_of(n, m, t, b, bound);
    let made = commitments::commit(setting, Profile::Fresh, a, s, t_out, d_out);
    *leaves_out = codes::count_of_made(made, *leaves_out);
    codes::code_of_answer(made)
}

// Message: writes V, T~, D~ and the digit witness S~ of the witness s1 and the vector s2. Refusals 1 to 8.
#[unsafe(no_mangle)]
pub extern "C" fn lova_message_fresh(
    n: u64,
    m: u64,
    t: u64,
    b: u64,
    bound: u64,
    a: &[u64],
    s1: &[i64],
    s2: &[i64],
    v: &mut [i64],
    tt: &mut [u64],
    dd: &mut [i64],
    ss: &mut [i64],
) -> u8
    ensures { returned result (as_prepared v.new tt.new dd.new ss.new)
        ≡ coded (message_in (parameters n m t b bound) Fresh a.now s1.now s2.now
        (as_prepared v.old tt.old dd.old ss.old)) }
{
    let setting = codes::setting_of(n, m, t, b, bound);
    let answer = messages::message(setting, Profile::Fresh, a, s1, s2, v, tt, dd, ss);
    codes::code_of_answer(answer)
}

// Folded witness: writes s = S' = S~ C. Refusals 1 to 7, 9 and 11.
#[unsafe(no_mangle)]
pub extern "C" fn lova_fold_witness_fresh(
    n: u64,
    m: u64,
    t: u64,
    b: u64,
    bound: u64,
    ss: &[i64],
    c: &[u8],
    s: &mut [i64],
) -> u8
    ensures { returned result s.new
        ≡ coded (witness_in (parameters n m t b bound) Fresh ss.now c.now
        s.old) }
{
    let setting = codes::setting_of(n, m, t, b, bound);
    let answer = witnesses::fold_witness(setting, Profile::Fresh, ss, c, s);
    codes::code_of_answer(answer)
}

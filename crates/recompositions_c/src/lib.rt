// Recomposition for C, in both profiles.
#![tactic(auto)]

ghost use Rattle.std.specs.Prelude.{◌≡◌};
ghost use Rattle.settings.specs.HouseList.{parameters};
ghost use Rattle.lova.specs.declared.Profile.TheVariants.{General, Fresh};
ghost use Rattle.lova.specs.Lent.{as_witnesses};
ghost use Rattle.lova.specs.Recompose.{recompose_in};
ghost use Rattle.codes.specs.Codes.{returned, coded};

use lova::Profile;

// Recomposition: writes S1 and S2 of the digit witness ss = S~. Refusals 1 to 7, 11, 8 and 16.
#[unsafe(no_mangle)]
pub extern "C" fn lova_recompose(
    n: u64,
    m: u64,
    t: u64,
    b: u64,
    bound: u64,
    ss: &[i64],
    s1: &mut [i64],
    s2: &mut [i64],
) -> u8
    ensures { returned result (as_witnesses s1.new s2.new)
        ≡ coded (recompose_in (parameters n m t b bound) General ss.now (as_witnesses s1.old s2.old)) }
{
    let setting = codes::setting_of(n, m, t, b, bound);
    let answer = recompositions::recompose(setting, Profile::General, ss, s1, s2);
    codes::code_of_answer(answer)
}

// The same of a fresh digit witness: writes S1 and the vector v.
#[unsafe(no_mangle)]
pub extern "C" fn lova_recompose_fresh(
    n: u64,
    m: u64,
    t: u64,
    b: u64,
    bound: u64,
    ss: &[i64],
    s1: &mut [i64],
    v: &mut [i64],
) -> u8
    ensures { returned result (as_witnesses s1.new v.new)
        ≡ coded (recompose_in (parameters n m t b bound) Fresh ss.now (as_witnesses s1.old v.old)) }
{
    let setting = codes::setting_of(n, m, t, b, bound);
    let answer = recompositions::recompose(setting, Profile::Fresh, ss, s1, v);
    codes::code_of_answer(answer)
}

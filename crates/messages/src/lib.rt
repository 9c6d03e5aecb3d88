// Message: V, T~, D~ and the digit witness S~ of two witnesses.
#![tactic(auto)]

ghost use Rattle.std.specs.Prelude.{◌≡◌, ◌&&◌};
ghost use Rattle.settings.specs.Accepted.{parameters_in};
ghost use Rattle.settings.specs.Refusals.{number_in};
ghost use Rattle.settings.specs.Rules.{first_of};
ghost use Rattle.settings.specs.Settings.{parameters_of};
ghost use Rattle.lova.specs.Answers.{ends, answer_of};
ghost use Rattle.lova.specs.Stored.{matrix_A, matrix_S, right_S};
ghost use Rattle.lova.specs.Lent.{as_prepared};
ghost use Rattle.lova.specs.Tests.{fits, fits_prepared};
ghost use Rattle.lova.specs.Message.{message_rules, message_in};

use lova::Profile;
use settings::{AcceptedSetting, Refusal, Setting};

// Whether the slices have the lengths of their matrices. No struct holds the outputs: `message` is lent the four one by
// one, to write them, and this only reads them.
fn lengths_fit(
    accepted: &AcceptedSetting,
    profile: Profile,
    a: &[u64],
    s1: &[i64],
    s2: &[i64],
    v: &[i64],
    tt: &[u64],
    dd: &[i64],
    ss: &[i64],
) -> bool
    ensures { result
        ≡ (fits (matrix_A (parameters_in accepted.now)) a.now
        && fits (matrix_S (parameters_in accepted.now)) s1.now
        && fits (right_S (parameters_in accepted.now) profile) s2.now
        && fits_prepared (parameters_in accepted.now) profile (as_prepared v.now tt.now dd.now ss.now)) }
{
    let setting = &accepted.setting;
    let right = profile.right(setting.t);
    let wide = (setting.t + right) * setting.k;
    let inputs = scans::both(
        scans::both(
            a.len() == setting.n * setting.m,
            s1.len() == setting.m * setting.t,
        ),
        s2.len() == setting.m * right,
    );
    let outputs = scans::both(
        scans::message_fits(accepted, profile, v, tt, dd),
        ss.len() == setting.m * wide,
    );
    scans::both(inputs, outputs)
}

// The first refusal that applies of those for lengths and for a long column, if any.
fn test_message(
    accepted: &AcceptedSetting,
    profile: Profile,
    a: &[u64],
    s1: &[i64],
    s2: &[i64],
    v: &[i64],
    tt: &[u64],
    dd: &[i64],
    ss: &[i64],
) -> Result<(), Refusal>
    ensures { number_in result
        ≡ first_of (message_rules (parameters_in accepted.now) profile a.now s1.now s2.now
        (as_prepared v.now tt.now dd.now ss.now)) }
{
    if !lengths_fit(accepted, profile, a, s1, s2, v, tt, dd, ss) {
        return Err(Refusal::Lengths);
    }
    let setting = &accepted.setting;
    if !scans::columns_within(s1, setting.m, setting.t, setting.bound) {
        return Err(Refusal::LongColumn);
    }
    let right = profile.right(setting.t);
    if !scans::columns_within(s2, setting.m, right, setting.bound) {
        return Err(Refusal::LongColumn);
    }
    Ok(())
}

// Writes v, tt = T~, dd = D~ and ss = S~ for the witnesses s1 and s2; a fresh s2 is one column.
pub fn message(
    setting: Setting,
    profile: Profile,
    a: &[u64],
    s1: &[i64],
    s2: &[i64],
    v: &mut [i64],
    tt: &mut [u64],
    dd: &mut [i64],
    ss: &mut [i64],
) -> Result<(), Refusal>
    ensures { ends (answer_of result) (as_prepared v.new tt.new dd.new ss.new)
        ≡ message_in (parameters_of setting) profile a.now s1.now s2.now
        (as_prepared v.old tt.old dd.old ss.old) }
{
    let accepted = setting.accepted()?;
    test_message(&accepted, profile, a, s1, s2, v, tt, dd, ss)?;
    let Setting { n, m, t, k, .. } = accepted.setting;
    let right = profile.right(t);
    let wide = (t + right) * k;
    cross_products::cross_products(s1, s2, m, t, right, v);
    digit_witnesses::write_witness(&accepted, right, s1, s2, ss);
    word_products::commitment(a, ss, n, m, wide, tt);
    small_gram::small_gram(ss, m, wide, dd);
    Ok(())
}

// Commit: T = A S modulo 2^64 and D = S-transposed S, for a witness S.
#![tactic(auto)]

ghost use Rattle.std.specs.Prelude.{◌≡◌, ◌&&◌};
ghost use Rattle.settings.specs.Accepted.{parameters_in};
ghost use Rattle.settings.specs.Refusals.{number_in};
ghost use Rattle.settings.specs.Rules.{first_of};
ghost use Rattle.settings.specs.Settings.{parameters_of};
ghost use Rattle.lova.specs.Answers.{ends, answer_of, made_leaves};
ghost use Rattle.lova.specs.Stored.{counted, matrix_A, right_S};
ghost use Rattle.lova.specs.Lent.{as_instance};
ghost use Rattle.lova.specs.Tests.{fits, fits_right};
ghost use Rattle.lova.specs.Commit.{commit_rules, commit_in};

use lova::Profile;
use settings::{AcceptedSetting, Refusal, Setting};

// Whether the slices have the lengths of their matrices.
fn lengths_fit(
    accepted: &AcceptedSetting,
    profile: Profile,
    a: &[u64],
    s: &[i64],
    t: &[u64],
    d: &[i64],
) -> bool
    ensures { result
        ≡ (fits (matrix_A (parameters_in accepted.now)) a.now
        && fits (right_S (parameters_in accepted.now) profile) s.now
        && fits_right (parameters_in accepted.now) profile (as_instance t.now d.now)) }
{
    let setting = &accepted.setting;
    let right = profile.right(setting.t);
    a.len() == setting.n * setting.m
        && s.len() == setting.m * right
        && scans::instance_fits(accepted, profile, t, d)
}

// The first refusal that applies of those for lengths and for a long column, if any.
fn test_commit(
    accepted: &AcceptedSetting,
    profile: Profile,
    a: &[u64],
    s: &[i64],
    t: &[u64],
    d: &[i64],
) -> Result<(), Refusal>
    ensures { number_in result
        ≡ first_of (commit_rules (parameters_in accepted.now) profile a.now s.now
        (as_instance t.now d.now)) }
{
    if !lengths_fit(accepted, profile, a, s, t, d) {
        return Err(Refusal::Lengths);
    }
    let setting = &accepted.setting;
    let right = profile.right(setting.t);
    if !scans::columns_within(s, setting.m, right, setting.bound) {
        return Err(Refusal::LongColumn);
    }
    Ok(())
}

// Writes t = a s modulo 2^64 and d = s-transposed s; a fresh s is one column. One leaf is under the instance.
pub fn commit(
    setting: Setting,
    profile: Profile,
    a: &[u64],
    s: &[i64],
    t: &mut [u64],
    d: &mut [i64],
) -> Result<u32, Refusal>
    ensures { ends (answer_of result) (counted (as_instance t.new d.new) (made_leaves result))
        ≡ commit_in (parameters_of setting) profile a.now s.now (as_instance t.old d.old) }
{
    let accepted = setting.accepted()?;
    test_commit(&accepted, profile, a, s, t, d)?;
    let Setting {
        n,
        m,
        t: columns,
        ..
    } = accepted.setting;
    let right = profile.right(columns);
    word_products::commitment(a, s, n, m, right, t);
    cross_products::cross_products(s, s, m, right, right, d);
    Ok(1)
}

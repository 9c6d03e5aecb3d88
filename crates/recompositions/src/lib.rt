// Recomposition: the witnesses S1 and S2, or S1 and a fresh v, of a digit witness.
#![tactic(auto)]

ghost use Rattle.std.specs.Prelude.{◌≡◌, ◌&&◌};
ghost use Rattle.settings.specs.Accepted.{parameters_in};
ghost use Rattle.settings.specs.Refusals.{number_in};
ghost use Rattle.settings.specs.Rules.{first_of};
ghost use Rattle.settings.specs.Settings.{parameters_of};
ghost use Rattle.lova.specs.Answers.{ends, answer_of};
ghost use Rattle.lova.specs.Stored.{matrix_S, right_S, sent_S~};
ghost use Rattle.lova.specs.Lent.{as_witnesses};
ghost use Rattle.lova.specs.Tests.{fits};
ghost use Rattle.lova.specs.Recompose.{recompose_rules, recompose_in};

use digit_rows::DigitRows;
use lova::Profile;
use settings::{AcceptedSetting, Refusal, Setting};

// Whether the slices have the lengths of their matrices.
fn lengths_fit(
    accepted: &AcceptedSetting,
    profile: Profile,
    ss: &[i64],
    s1: &[i64],
    s2: &[i64],
) -> bool
    ensures { result
        ≡ (fits (sent_S~ (parameters_in accepted.now) profile) ss.now
        && fits (matrix_S (parameters_in accepted.now)) s1.now
        && fits (right_S (parameters_in accepted.now) profile) s2.now) }
{
    let setting = &accepted.setting;
    let right = profile.right(setting.t);
    let wide = (setting.t + right) * setting.k;
    let first = scans::both(
        ss.len() == setting.m * wide,
        s1.len() == setting.m * setting.t,
    );
    scans::both(first, s2.len() == setting.m * right)
}

// The first refusal that applies of those for lengths, for a large digit, for a long column and for other digits, if
// any.
fn test_recompose(
    accepted: &AcceptedSetting,
    profile: Profile,
    ss: &[i64],
    s1: &[i64],
    s2: &[i64],
) -> Result<(), Refusal>
    ensures { number_in result
        ≡ first_of (recompose_rules (parameters_in accepted.now) profile ss.now (as_witnesses s1.now s2.now)) }
{
    if !lengths_fit(accepted, profile, ss, s1, s2) {
        return Err(Refusal::Lengths);
    }
    let Setting {
        m,
        t,
        b,
        bound,
        k,
        ..
    } = accepted.setting;
    if !scans::entries_within(ss, b / 2) {
        return Err(Refusal::LargeDigit);
    }
    let wide = t + profile.right(t);
    let rows = DigitRows {
        digits: ss,
        m,
        wide,
        k,
        b,
    };
    rows.test(bound)
}

// Writes s1 and s2, or s1 and v, of the digit witness ss; a fresh s2 is one column.
pub fn recompose(
    setting: Setting,
    profile: Profile,
    ss: &[i64],
    s1: &mut [i64],
    s2: &mut [i64],
) -> Result<(), Refusal>
    ensures { ends (answer_of result) (as_witnesses s1.new s2.new)
        ≡ recompose_in (parameters_of setting) profile ss.now (as_witnesses s1.old s2.old) }
{
    let accepted = setting.accepted()?;
    test_recompose(&accepted, profile, ss, s1, s2)?;
    let Setting { m, t, b, k, .. } = accepted.setting;
    let right = profile.right(t);
    let wide = t + right;
    let rows = DigitRows {
        digits: ss,
        m,
        wide,
        k,
        b,
    };
    rows.write_columns(0, t, s1);
    rows.write_columns(t, right, s2);
    Ok(())
}

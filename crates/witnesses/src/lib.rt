// The folded witness: S' = S~ C.
#![tactic(auto)]

ghost use Rattle.std.specs.Prelude.{◌≡◌, ◌&&◌};
ghost use Rattle.settings.specs.Accepted.{parameters_in};
ghost use Rattle.settings.specs.Refusals.{number_in};
ghost use Rattle.settings.specs.Rules.{first_of};
ghost use Rattle.settings.specs.Settings.{parameters_of};
ghost use Rattle.lova.specs.Answers.{ends, answer_of};
ghost use Rattle.lova.specs.Stored.{matrix_S, sent_S~};
ghost use Rattle.lova.specs.Tests.{fits, fits_C};
ghost use Rattle.lova.specs.Witness.{witness_rules, witness_in};

use challenges::Challenge;
use lova::Profile;
use settings::{AcceptedSetting, Refusal, Setting};

// Whether the slices have the lengths of their matrices.
fn lengths_fit(
    accepted: &AcceptedSetting,
    profile: Profile,
    ss: &[i64],
    c: &[u8],
    s: &[i64],
) -> bool
    ensures { result
        ≡ (fits (sent_S~ (parameters_in accepted.now) profile) ss.now
        && fits_C (parameters_in accepted.now) c.now
        && fits (matrix_S (parameters_in accepted.now)) s.now) }
{
    let setting = &accepted.setting;
    let right = profile.right(setting.t);
    let wide = (setting.t + right) * setting.k;
    let inputs = scans::both(
        ss.len() == setting.m * wide,
        c.len() == setting.columns * setting.t,
    );
    scans::both(inputs, s.len() == setting.m * setting.t)
}

// The first refusal that applies of those for lengths, for the challenge and for a large digit, if any.
fn test_fold(
    accepted: &AcceptedSetting,
    profile: Profile,
    ss: &[i64],
    c: &[u8],
    s: &[i64],
) -> Result<(), Refusal>
    ensures { number_in result
        ≡ first_of (witness_rules (parameters_in accepted.now) profile ss.now c.now
        s.now) }
{
    if !lengths_fit(accepted, profile, ss, c, s) {
        return Err(Refusal::Lengths);
    }
    let setting = &accepted.setting;
    if !scans::are_ternary(c, setting.columns, setting.t) {
        return Err(Refusal::Challenge);
    }
    if !scans::entries_within(ss, setting.b / 2) {
        return Err(Refusal::LargeDigit);
    }
    Ok(())
}

// Writes s = S' = S~ C for the digit witness ss = S~ and the challenge c; the rows of C that meet the same column of a
// fresh S~ are added up first.
pub fn fold_witness(
    setting: Setting,
    profile: Profile,
    ss: &[i64],
    c: &[u8],
    s: &mut [i64],
) -> Result<(), Refusal>
    ensures { ends (answer_of result) s.new
        ≡ witness_in (parameters_of setting) profile ss.now c.now s.old }
{
    let accepted = setting.accepted()?;
    test_fold(&accepted, profile, ss, c, s)?;
    let Setting { m, t, k, .. } = accepted.setting;
    let challenge = Challenge {
        bytes: c,
        left: t * k,
        block: profile.right(t) * k,
        copies: profile.copies(t),
        columns: t,
    };
    challenge_folds::fold_digits(ss, challenge, m, s);
    Ok(())
}

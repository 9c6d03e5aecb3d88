// Join: [T1 T2] and [D1 V; V-transposed D2], written out; n by 2t and 2t by 2t in both profiles.
#![tactic(auto)]

ghost use Rattle.std.specs.Prelude.{◌≡◌, ◌&&◌};
ghost use Rattle.settings.specs.Rules.{first_of};
ghost use Rattle.settings.specs.Settings.{parameters_of};
ghost use Rattle.settings.specs.Accepted.{parameters_in};
ghost use Rattle.settings.specs.Refusals.{number_in};
ghost use Rattle.lova.specs.Answers.{ends, answer_of, made_leaves};
ghost use Rattle.lova.specs.Stored.{counted, sent_V};
ghost use Rattle.lova.specs.Lent.{as_instance, lent_instance};
ghost use Rattle.lova.specs.Tests.{fits, fits_instance, fits_right, fits_joined};
ghost use Rattle.lova.specs.Join.{join_rules, join_in};

mod joined;
mod spreads;

use lova::{Instance, Profile};
use settings::{AcceptedSetting, Refusal, Setting};

// Whether t and d have the lengths of the joined T and D.
fn joined_fits(accepted: &AcceptedSetting, t: &[u64], d: &[i64]) -> bool
    ensures { result ≡ fits_joined (parameters_in accepted.now) (as_instance t.now d.now) }
{
    let setting = &accepted.setting;
    let wide = 2 * setting.t;
    t.len() == setting.n * wide && d.len() == wide * wide
}

// Whether the slices have the lengths of their matrices.
fn lengths_fit(
    accepted: &AcceptedSetting,
    profile: Profile,
    first: Instance,
    second: Instance,
    v: &[i64],
    t: &[u64],
    d: &[i64],
) -> bool
    ensures { result
        ≡ (fits_instance (parameters_in accepted.now) (as_instance first.entry.t.now first.entry.d.now)
        && fits_right (parameters_in accepted.now) profile (as_instance second.entry.t.now second.entry.d.now)
        && fits (sent_V (parameters_in accepted.now) profile) v.now
        && fits_joined (parameters_in accepted.now) (as_instance t.now d.now)) }
{
    let right = profile.right(accepted.setting.t);
    scans::instance_fits(accepted, Profile::General, first.t, first.d)
        && scans::instance_fits(accepted, profile, second.t, second.d)
        && v.len() == accepted.setting.t * right
        && joined_fits(accepted, t, d)
}

// The first refusal that applies of those for lengths and for leaf counts that cannot be joined, if any.
fn test_join(
    accepted: &AcceptedSetting,
    profile: Profile,
    first: Instance,
    second: Instance,
    v: &[i64],
    t: &[u64],
    d: &[i64],
) -> Result<(), Refusal>
    ensures { number_in result
        ≡ first_of (join_rules (parameters_in accepted.now) profile (lent_instance first.entry)
        (lent_instance second.entry) v.now (as_instance t.now d.now)) }
{
    if !lengths_fit(accepted, profile, first, second, v, t, d) {
        return Err(Refusal::Lengths);
    }
    if !scans::counts_join(first.leaves, second.leaves) {
        return Err(Refusal::Leaves);
    }
    Ok(())
}

// Writes the joined t and d of two instances and v. The leaves under both are under the joined one.
pub fn join(
    setting: Setting,
    profile: Profile,
    first: Instance,
    second: Instance,
    v: &[i64],
    t: &mut [u64],
    d: &mut [i64],
) -> Result<u32, Refusal>
    ensures { ends (answer_of result) (counted (as_instance t.new d.new) (made_leaves result))
        ≡ join_in (parameters_of setting) profile (lent_instance first.entry) (lent_instance second.entry) v.now
        (as_instance t.old d.old) }
{
    let accepted = setting.accepted()?;
    test_join(&accepted, profile, first, second, v, t, d)?;
    let setting = &accepted.setting;
    joined::write_t(profile, first.t, second.t, setting.n, setting.t, t);
    joined::write_d(&accepted, profile, first.d, v, second.d, d);
    Ok(first.leaves + second.leaves)
}

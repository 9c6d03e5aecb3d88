// Verify: the verdict on a message, and on yes the folded instance.
#![tactic(auto)]

ghost use Rattle.std.specs.Prelude.{◌≡◌, ◌&&◌, ◌*◌, ◌<◌, pos, length};
ghost use Rattle.std.specs.Int.Signed.{le_z};
ghost use Rattle.integers.specs.Tests.{all};
ghost use Rattle.matrices.specs.Matrices.{product, both_sides};
ghost use Rattle.matrices.specs.Tables.{signed};
ghost use Rattle.settings.specs.Rules.{first_of};
ghost use Rattle.settings.specs.Settings.{parameters_of, HOf};
ghost use Rattle.settings.specs.Accepted.{parameters_in};
ghost use Rattle.settings.specs.Refusals.{number_in};
ghost use Rattle.lova.specs.Answers.{ends, verdict_of, verdict_leaves};
ghost use Rattle.lova.specs.Lent.{as_instance, lent_instance, lent_message};
ghost use Rattle.lova.specs.Stored.{counted, right_of, columns_of, matrix_T, matrix_D, right_D, sent_T~, sent_D~};
ghost use Rattle.lova.specs.Repeats.{challenge_in};
ghost use Rattle.lova.specs.Tests.{fits_instance, fits_right, fits_message, fits_C, diagonal_within};
ghost use Rattle.lova.specs.Calls.{Fits, FitsC, Bounded};
ghost use Rattle.lova.specs.Verdict.{verdict_rules, verdict_in};

use challenges::Challenge;
use lova::{Instance, Message, Profile, Verdict};
use settings::{AcceptedSetting, Refusal, Setting};

// Whether each slice has the length of its matrix.
fn lengths_fit(
    accepted: &AcceptedSetting,
    profile: Profile,
    first: Instance,
    second: Instance,
    message: Message,
    c: &[u8],
    t: &[u64],
    d: &[i64],
) -> bool
    ensures { result
        ≡ (fits_instance (parameters_in accepted.now) (lent_instance first.entry).instance
        && fits_right (parameters_in accepted.now) profile (lent_instance second.entry).instance
        && fits_message (parameters_in accepted.now) profile (lent_message message.entry)
        && fits_C (parameters_in accepted.now) c.now
        && fits_instance (parameters_in accepted.now) (as_instance t.now d.now)) }
{
    scans::instance_fits(accepted, Profile::General, first.t, first.d)
        && scans::instance_fits(accepted, profile, second.t, second.d)
        && scans::message_fits(accepted, profile, message.v, message.tt, message.dd)
        && c.len() == accepted.setting.columns * accepted.setting.t
        && scans::instance_fits(accepted, Profile::General, t, d)
}

// The first refusal that applies, if any: of those for lengths, for leaf counts that cannot be joined, for a byte of c
// above 2, and for an entry of D~ above H in size. Not inlined: within `verify` the scans would lack registers.
#[inline(never)]
fn test_verify(
    accepted: &AcceptedSetting,
    profile: Profile,
    first: Instance,
    second: Instance,
    message: Message,
    c: &[u8],
    t: &[u64],
    d: &[i64],
) -> Result<(), Refusal>
    ensures { number_in result
        ≡ first_of (verdict_rules (parameters_in accepted.now) profile (lent_instance first.entry)
        (lent_instance second.entry) (lent_message message.entry) c.now (as_instance t.now d.now)) }
{
    let setting = &accepted.setting;
    if !lengths_fit(accepted, profile, first, second, message, c, t, d) {
        return Err(Refusal::Lengths);
    }
    if !scans::counts_join(first.leaves, second.leaves) {
        return Err(Refusal::Leaves);
    }
    if !scans::are_ternary(c, setting.columns, setting.t) {
        return Err(Refusal::Challenge);
    }
    let h = setting.b / 2;
    if !scans::entries_within(message.dd, h * h * (setting.m as u64)) {
        return Err(Refusal::LargeProduct);
    }
    Ok(())
}

// Whether diagonal entry i of d, which has `cols` rows and columns, is at most `bound`, as signed numbers. An entry of
// D1 or D2 meets B here alone.
fn entry_within(d: &[i64], cols: usize, i: usize, bound: u64) -> bool
    requires { (length d.now ≡ cols * cols) × (i < cols) }
    ensures { result ≡ le_z (signed cols d.now i i) (pos bound) }
{
    let entry = d[i * cols + i];
    entry < 0 || entry as u64 <= bound
}

// Whether each diagonal entry is.
fn diagonal_within(d: &[i64], cols: usize, bound: u64) -> bool
    requires { length d.now ≡ cols * cols }
    ensures { result ≡ all cols (λ i. le_z (signed cols d.now i i) (pos bound)) }
{
    (0..cols).all(|i| entry_within(d, cols, i, bound))
}

// Whether no diagonal entry of D1 or D2 exceeds B.
fn diagonals_hold(accepted: &AcceptedSetting, profile: Profile, d1: &[i64], d2: &[i64]) -> bool
    requires { Fits (matrix_D (parameters_in accepted.now)) d1.now
        × Fits (right_D (parameters_in accepted.now) profile) d2.now }
    ensures { let p = parameters_in accepted.now in
        result
        ≡ (diagonal_within p d1.now
        && all (right_of p profile) (λ i. le_z ((right_D p profile).read d2.now i i) (pos p.bound))) }
{
    let setting = &accepted.setting;
    diagonal_within(d1, setting.t, setting.bound)
        && diagonal_within(d2, profile.right(setting.t), setting.bound)
}

// Writes the folded t and d: T~ and D~ by the challenge c, whose rows that meet the same column are added up. Not
// inlined: the decoded challenge would stand in `verify`'s own frame, and take its stack where nothing is folded too.
#[inline(never)]
fn write_folded(
    accepted: &AcceptedSetting,
    profile: Profile,
    message: Message,
    c: &[u8],
    t: &mut [u64],
    d: &mut [i64],
)
    requires fits { Fits (sent_T~ (parameters_in accepted.now) profile) message.tt.now
        × Fits (sent_D~ (parameters_in accepted.now) profile) message.dd.now × FitsC (parameters_in accepted.now) c.now
        × Fits (matrix_T (parameters_in accepted.now)) t.old × Fits (matrix_D (parameters_in accepted.now)) d.old }
    requires bounded { let p = parameters_in accepted.now in
        Bounded (columns_of p profile) (columns_of p profile) (HOf p) ((sent_D~ p profile).read message.dd.now) }
    ensures t_after { let p = parameters_in accepted.now in
        t.new
        ≡ (matrix_T p).write (product (columns_of p profile) ((sent_T~ p profile).read message.entry.tt.now)
        (challenge_in p profile c.now)) }
    ensures d_after { let p = parameters_in accepted.now in
        d.new
        ≡ (matrix_D p).write (both_sides (columns_of p profile) (challenge_in p profile c.now)
        ((sent_D~ p profile).read message.entry.dd.now)) }
{
    let setting = &accepted.setting;
    let challenge = Challenge {
        bytes: c,
        left: setting.t * setting.k,
        block: profile.right(setting.t) * setting.k,
        copies: profile.copies(setting.t),
        columns: setting.t,
    };
    challenge_folds::fold_instance(message.tt, message.dd, challenge, setting.n, t, d);
}

// Judges a message on two instances, the second of which may be a fresh one; on yes writes the folded t and d for the
// challenge c, and the leaves under both are under the folded one.
pub fn verify(
    setting: Setting,
    profile: Profile,
    first: Instance,
    second: Instance,
    message: Message,
    c: &[u8],
    t: &mut [u64],
    d: &mut [i64],
) -> Result<Verdict, Refusal>
    ensures { ends (verdict_of result) (counted (as_instance t.new d.new) (verdict_leaves result))
        ≡ verdict_in (parameters_of setting) profile (lent_instance first.entry) (lent_instance second.entry)
        (lent_message message.entry) c.now (as_instance t.old d.old) }
{
    let accepted = setting.accepted()?;
    test_verify(&accepted, profile, first, second, message, c, t, d)?;
    if !diagonals_hold(&accepted, profile, first.d, second.d) {
        return Ok(Verdict::Long);
    }
    if !equations::norm_holds(&accepted, profile, first, second, message) {
        return Ok(Verdict::Norm);
    }
    if !equations::commitment_holds(&accepted, profile, first, second, message) {
        return Ok(Verdict::Commitment);
    }
    write_folded(&accepted, profile, message, c, t, d);
    Ok(Verdict::Yes(first.leaves + second.leaves))
}

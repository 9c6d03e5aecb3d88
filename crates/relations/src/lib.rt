// The relation test: whether T, D and S are in the paper's relation (1) with A.
#![tactic(auto)]

ghost use Rattle.std.specs.Prelude.{◌≡◌, ◌&&◌, ℕ, ◌<◌, ◌^◌, get_or};
ghost use Rattle.matrices.specs.Matrices.{product, gram};
ghost use Rattle.settings.specs.Rules.{first_of};
ghost use Rattle.settings.specs.Settings.{parameters_of};
ghost use Rattle.settings.specs.Accepted.{parameters_in};
ghost use Rattle.settings.specs.Refusals.{number_in};
ghost use Rattle.lova.specs.Answers.{membership_of};
ghost use Rattle.lova.specs.Stored.{matrix_A, matrix_T, matrix_S, matrix_D};
ghost use Rattle.lova.specs.Lent.{as_instance};
ghost use Rattle.lova.specs.Tests.{eq_Z, equal, equal_words, fits, fits_instance};
ghost use Rattle.lova.specs.Calls.{Fits, Short};
ghost use Rattle.lova.specs.Relation.{relation_rules, relation};

use lova::{Membership, Profile};
use settings::{AcceptedSetting, Refusal, Setting};

// Whether the slices have the lengths of their matrices.
fn lengths_fit(accepted: &AcceptedSetting, a: &[u64], t: &[u64], d: &[i64], s: &[i64]) -> bool
    ensures { result
        ≡ (fits (matrix_A (parameters_in accepted.now)) a.now
        && fits_instance (parameters_in accepted.now) (as_instance t.now d.now)
        && fits (matrix_S (parameters_in accepted.now)) s.now) }
{
    let setting = &accepted.setting;
    a.len() == setting.n * setting.m
        && scans::instance_fits(accepted, Profile::General, t, d)
        && s.len() == setting.m * setting.t
}

// The refusal for lengths, if it applies.
fn test_lengths(
    accepted: &AcceptedSetting,
    a: &[u64],
    t: &[u64],
    d: &[i64],
    s: &[i64],
) -> Result<(), Refusal>
    ensures { number_in result
        ≡ first_of (relation_rules (parameters_in accepted.now) a.now (as_instance t.now d.now) s.now) }
{
    if lengths_fit(accepted, a, t, d, s) {
        Ok(())
    } else {
        Err(Refusal::Lengths)
    }
}

// Whether two entries are equal: an entry of D and its product are compared here alone.
fn entry_equals(x: i64, y: i64) -> bool
    ensures { result ≡ eq_Z x y }
{
    x == y
}

// Whether s-transposed s is d, for an s with short columns. It is made in `own` as a whole, since by rows of s it costs
// less than entry by entry.
fn products_hold_in(accepted: &AcceptedSetting, d: &[i64], s: &[i64], own: &mut [i64]) -> bool
    requires { Fits (matrix_D (parameters_in accepted.now)) d.now
        × Fits (matrix_S (parameters_in accepted.now)) s.now × Short (parameters_in accepted.now) s.now
        × Fits (matrix_D (parameters_in accepted.now)) own.old }
    ensures { let p = parameters_in accepted.now in
        result ≡ equal p.t p.t (gram p.m ((matrix_S p).read s.now)) ((matrix_D p).read d.now) }
{
    let setting = &accepted.setting;
    cross_products::cross_products(s, s, setting.m, setting.t, setting.t, own);
    (0..own.len()).all(|i| entry_equals(own[i], d[i]))
}

// The same with an array of its own: a small one for few columns, since a local array is cleared at each call. With the
// size as a const parameter `products_hold_in` would be compiled once for each, which costs code size.
fn products_hold(accepted: &AcceptedSetting, d: &[i64], s: &[i64]) -> bool
    requires { Fits (matrix_D (parameters_in accepted.now)) d.now
        × Fits (matrix_S (parameters_in accepted.now)) s.now × Short (parameters_in accepted.now) s.now }
    ensures { let p = parameters_in accepted.now in
        result ≡ equal p.t p.t (gram p.m ((matrix_S p).read s.now)) ((matrix_D p).read d.now) }
{
    let size = accepted.setting.t * accepted.setting.t;
    if size <= 16 {
        let mut own = [0i64; 16];
        products_hold_in(accepted, d, s, &mut own[..size])
    } else {
        let mut own = [0i64; 256];
        products_hold_in(accepted, d, s, &mut own[..size])
    }
}

// Whether a s, made in `own`, is t modulo 2^64.
fn commitment_holds_in(
    accepted: &AcceptedSetting,
    a: &[u64],
    t: &[u64],
    s: &[i64],
    own: &mut [u64],
) -> bool
    requires { Fits (matrix_A (parameters_in accepted.now)) a.now × Fits (matrix_T (parameters_in accepted.now)) t.now
        × Fits (matrix_S (parameters_in accepted.now)) s.now × Fits (matrix_T (parameters_in accepted.now)) own.old
        × ((i : ℕ) → get_or t.now i 0 < 2 ^ 64) }
    ensures { let p = parameters_in accepted.now in
        result
        ≡ equal_words p.n p.t (product p.m ((matrix_A p).read a.now) ((matrix_S p).read s.now))
        ((matrix_T p).read t.now) }
{
    let setting = &accepted.setting;
    word_products::commitment(a, s, setting.n, setting.m, setting.t, own);
    let congruent = (0..own.len()).all(|i| own[i] == t[i]);
    congruent
}

// The same with an array of its own: a small one for few entries, and no const parameter, as above.
fn commitment_holds(accepted: &AcceptedSetting, a: &[u64], t: &[u64], s: &[i64]) -> bool
    requires { Fits (matrix_A (parameters_in accepted.now)) a.now × Fits (matrix_T (parameters_in accepted.now)) t.now
        × Fits (matrix_S (parameters_in accepted.now)) s.now }
    ensures { let p = parameters_in accepted.now in
        result
        ≡ equal_words p.n p.t (product p.m ((matrix_A p).read a.now) ((matrix_S p).read s.now))
        ((matrix_T p).read t.now) }
{
    let size = accepted.setting.n * accepted.setting.t;
    if size <= 64 {
        let mut own = [0u64; 64];
        commitment_holds_in(accepted, a, t, s, &mut own[..size])
    } else {
        let mut own = [0u64; 1024];
        commitment_holds_in(accepted, a, t, s, &mut own[..size])
    }
}

// Whether t, d and s are in the paper's relation (1) with a.
pub fn test_relation(
    setting: Setting,
    a: &[u64],
    t: &[u64],
    d: &[i64],
    s: &[i64],
) -> Result<Membership, Refusal>
    ensures { membership_of result
        ≡ (relation (parameters_of setting) a.now (as_instance t.now d.now) s.now).answer }
{
    let accepted = setting.accepted()?;
    test_lengths(&accepted, a, t, d, s)?;
    let Setting {
        m,
        t: columns,
        bound,
        ..
    } = accepted.setting;
    if !scans::columns_within(s, m, columns, bound) {
        return Ok(Membership::Long);
    }
    if !products_hold(&accepted, d, s) {
        return Ok(Membership::Products);
    }
    if !commitment_holds(&accepted, a, t, s) {
        return Ok(Membership::Commitment);
    }
    Ok(Membership::Member)
}

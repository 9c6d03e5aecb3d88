// The tests of slices that refusals rest on.
#![tactic(auto)]

ghost use Rattle.std.specs.Prelude.{◌≡◌, ◌&&◌, ◌*◌, leb, pos, nat_abs, length, get_or};
ghost use Rattle.integers.specs.Tests.{all};
ghost use Rattle.matrices.specs.Matrices.{squared_length};
ghost use Rattle.matrices.specs.Tables.{entry, signed};
ghost use Rattle.settings.specs.Accepted.{parameters_in};
ghost use Rattle.lova.specs.Lent.{as_instance, as_message};
ghost use Rattle.lova.specs.Tests.{every, counts_join, fits_right, fits_message};

use lova::Profile;
use settings::AcceptedSetting;

// Whether each column of s, which has m rows and `cols` columns, has a squared length of at most `bound`.
pub fn columns_within(s: &[i64], m: usize, cols: usize, bound: u64) -> bool
    requires { length s.now ≡ m * cols }
    ensures { result ≡ all cols (λ j. leb (squared_length m (signed cols s.now) j) bound) }
{
    (0..cols).all(|j| matrices::column_within(s, m, cols, j, bound))
}

// Whether each byte of c is 0, 1 or 2.
pub fn are_ternary(c: &[u8], rows: usize, cols: usize) -> bool
    requires { length c.now ≡ rows * cols }
    ensures { result ≡ every rows cols (λ i j. leb (entry 0 cols c.now i j) 2) }
{
    c.iter().all(|x| *x <= 2)
}

// Whether each number of x is at most `limit` in size.
pub fn entries_within(x: &[i64], limit: u64) -> bool
    ensures { result
        ≡ all (length x.now) (λ i. leb (nat_abs (get_or x.now i (pos 0))) limit) }
{
    x.iter().all(|entry| integers::size(*entry) <= limit)
}

// Whether two leaf counts can be joined: none is 0, and the sum is below 2^32.
#[tactic(auto, using(crate::proofs::Counts::first_none, crate::proofs::Counts::second_none, crate::proofs::Counts::by_sum))]
pub fn counts_join(leaves1: u32, leaves2: u32) -> bool
    ensures { result ≡ counts_join leaves1 leaves2 }
{
    leaves1 > 0 && leaves2 > 0 && leaves1.checked_add(leaves2).is_some()
}

// Whether both hold. Lengths are joined by it, so that a test of many has no branch of its own for each. It is `&`
// under a name that stays, since a wrong version (`one_for_both`) goes by it.
pub fn both(a: bool, b: bool) -> bool
    ensures { result ≡ (a && b) }
{
    a && b
}

// Whether t and d have the lengths of an instance's T and D; a first instance and a folded one are general.
pub fn instance_fits(accepted: &AcceptedSetting, profile: Profile, t: &[u64], d: &[i64]) -> bool
    ensures { result ≡ fits_right (parameters_in accepted.now) profile (as_instance t.now d.now) }
{
    let setting = &accepted.setting;
    let right = profile.right(setting.t);
    both(t.len() == setting.n * right, d.len() == right * right)
}

// Whether v, tt and dd have the lengths of a message's V, T~ and D~.
pub fn message_fits(
    accepted: &AcceptedSetting,
    profile: Profile,
    v: &[i64],
    tt: &[u64],
    dd: &[i64],
) -> bool
    ensures { result ≡ fits_message (parameters_in accepted.now) profile (as_message v.now tt.now dd.now) }
{
    let setting = &accepted.setting;
    let right = profile.right(setting.t);
    let wide = (setting.t + right) * setting.k;
    let first = both(v.len() == setting.t * right, tt.len() == setting.n * wide);
    both(first, dd.len() == wide * (wide + 1) / 2)
}

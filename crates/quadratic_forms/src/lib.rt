// The ternary vectors at which a quadratic form is 0, counted.
#![tactic(auto)]

ghost use Rattle.std.specs.Prelude.{◌≡◌, ◌+◌, ◌≤◌, pos, nat_abs, length};
ghost use Rattle.matrices.specs.Triangles.{mirrored};
ghost use Rattle.settings.specs.Refusals.{number_in, numbered};
ghost use Rattle.lova.specs.Tests.{eq_Z};
ghost use Rattle.quadratic_forms.specs.Forms.{tally, zeros_of, zeros};
ghost use Rattle.quadratic_forms.specs.Counts.{is_triangle, count_refusal, count_zeros, Proper};
ghost use Rattle.quadratic_forms.specs.Search.{value_at, last_zeros, terms_of, after_choice, Holds, Terms, Carried};
ghost use Rattle.quadratic_forms.specs.Search.{LastCarried};

use settings::Refusal;

// The largest number of rows.
pub const MAX_ROWS: usize = 12;

// The largest size of an entry: 2^52.
pub const MAX_ENTRY: u64 = 4503599627370496;

// 1 for a value that is 0.
fn tally_zero(value: i64) -> u64
    ensures { result ≡ tally (eq_Z value (pos 0)) }
{
    u64::from(value == 0)
}

// How many of the three choices for the only coordinate that is left make the value 0.
fn last_zeros(q: i64, term: i64, square: i64) -> u64
    requires { LastCarried q term square }
    ensures { result ≡ last_zeros q term square }
{
    let squared = q + square;
    let below = tally_zero(squared - term);
    let at = tally_zero(q);
    let above = tally_zero(squared + term);
    below + (at + above)
}

// The same for the two coordinates that are left. No list of linear terms is made for the last one: two of three calls
// of the search would be for it.
fn zeros_of_two(e: &[i64], q: i64, linear: &[i64]) -> u64
    requires { Carried e.now 2 q linear.now }
    ensures { result ≡ zeros_of 2 (value_at 2 (mirrored e.now) (terms_of linear.now) q) }
{
    let square = e[0];
    let first = linear[0];
    let second = linear[1];
    let squared = q + e[2];
    let beside = 2 * e[1];
    let below = last_zeros(squared - second, first - beside, square);
    let at = last_zeros(q, first, square);
    let above = last_zeros(squared + second, first + beside, square);
    below + (at + above)
}

// Writes the linear terms once c, 1 or -1, is chosen for coordinate r: entries off the diagonal count twice.
fn choose(e: &[i64], r: usize, c: i64, linear: &[i64], chosen: &mut [i64])
    requires { (nat_abs c ≤ 1) × Terms e.now (r + 1) linear.now × (length chosen.old ≡ 12) }
    ensures { Holds r (after_choice e.now r c (terms_of linear.now)) chosen.new }
{
    let start = r * (r + 1) / 2;
    for j in 0..r {
        chosen[j] = linear[j] + c * (2 * e[start + j]);
    }
}

// How many ternary vectors c of i entries make q + linear c + c-transposed E c zero: with its last entry chosen this is
// a sum of the same kind with one entry less.
fn zeros_with(e: &[i64], i: usize, q: i64, linear: &[i64]) -> u64
    requires { Carried e.now i q linear.now }
    ensures { result ≡ zeros_of i (value_at i (mirrored e.now) (terms_of linear.now) q) }
{
    if i == 1 {
        return last_zeros(q, linear[0], e[0]);
    }
    if i == 2 {
        return zeros_of_two(e, q, linear);
    }
    let r = i - 1;
    let squared = q + e[r * (r + 1) / 2 + r];
    let mut down: [i64; MAX_ROWS] = [0; MAX_ROWS];
    let mut up: [i64; MAX_ROWS] = [0; MAX_ROWS];
    choose(e, r, -1, linear, &mut down);
    choose(e, r, 1, linear, &mut up);
    let below = zeros_with(e, r, squared - linear[r], &down);
    let at = zeros_with(e, r, q, linear);
    let above = zeros_with(e, r, squared + linear[r], &up);
    below + (at + above)
}

// How many ternary vectors c of n entries make c-transposed E c zero. It is the same for c and -c: of the vectors whose
// last entry other than 0 stands at r, those with 1 there are counted, and each counts twice.
fn zeros_of(n: usize, e: &[i64]) -> u64
    requires { Proper n e.now }
    ensures { result ≡ zeros n (mirrored e.now) }
{
    let none: [i64; MAX_ROWS] = [0; MAX_ROWS];
    let mut up: [i64; MAX_ROWS] = [0; MAX_ROWS];
    let mut total = 1 + 2 * tally_zero(e[0]);
    for r in 1..n {
        choose(e, r, 1, &none, &mut up);
        let half = zeros_with(e, r, e[r * (r + 1) / 2 + r], &up);
        total += 2 * half;
    }
    total
}

// The first of the refusals 24, 7 and 25 that applies, if any.
fn test_form(n: usize, e: &[i64]) -> Result<(), Refusal>
    ensures { number_in result ≡ count_refusal n (is_triangle n e.now) e.now }
{
    if !integers::inside(n as u64, 1, MAX_ROWS as u64) {
        return Err(Refusal::Rows);
    }
    if e.len() != n * (n + 1) / 2 {
        return Err(Refusal::Lengths);
    }
    if !scans::entries_within(e, MAX_ENTRY) {
        return Err(Refusal::LargeEntry);
    }
    Ok(())
}

// Counts the ternary vectors c for which c-transposed E c is 0, where E is symmetric, has n rows and is given as its
// lower triangle by rows. Refusals 24, 7 and 25.
pub fn count_zeros(n: usize, e: &[i64]) -> Result<u64, Refusal>
    ensures { numbered result ≡ count_zeros n e.now }
{
    test_form(n, e)?;
    Ok(zeros_of(n, e))
}

// The joined T and D, [T1 T2] and [D1 V; V-transposed D2], written row by row from their parts. The one column of a
// fresh T2, V or D2 is spread over the right half.
ghost use Rattle.std.specs.Prelude.{◌≡◌, ◌*◌, ◌^◌, ◌<◌, length};
ghost use Rattle.integers.specs.Lists.{build};
ghost use Rattle.matrices.specs.Matrices.{transposed};
ghost use Rattle.matrices.specs.Tables.{table, entry, residues, signed, unsigned};
ghost use Rattle.settings.specs.Accepted.{parameters_in};
ghost use Rattle.lova.specs.Stored.{right_for, matrix_D, right_D, sent_V, joined_D};
ghost use Rattle.lova.specs.Calls.{Fits};
ghost use Rattle.lova.specs.Fold.{beside, blocks};
ghost use Rattle.joins.specs.Columns.{spread, spread_both, halves};

use crate::spreads;
use lova::Profile;
use settings::AcceptedSetting;

// Copies column i of x, which has `rows` rows and `cols` columns, to out.
fn copy_column(x: &[i64], rows: usize, cols: usize, i: usize, out: &mut [i64])
    requires { (length x.now ≡ rows * cols) × (i < cols) × (length out.old ≡ rows) }
    ensures { out.new ≡ build rows (λ j. signed cols x.now j i) }
{
    for (j, place) in out.iter_mut().enumerate() {
        *place = x[j * cols + i];
    }
}

// Writes [x y], `rows` by 2 cols, row by row: a row of x, and then one of y.
fn write_beside<T: Copy>(
    profile: Profile,
    x: &[T],
    y: &[T],
    rows: usize,
    cols: usize,
    out: &mut [T],
)
    requires { (length x.now ≡ rows * cols) × (length y.now ≡ rows * right_for cols profile)
        × (length out.old ≡ rows * (2 * cols)) × (2 * cols < 2 ^ 64) }
    ensures { (d : T) → out.new
        ≡ table rows (2 * cols) (halves profile cols (entry d cols x.now) (entry d (right_for cols profile) y.now)) }
{
    let right = profile.right(cols);
    for i in 0..rows {
        let first = i * cols;
        let second = i * right;
        let start = i * (2 * cols);
        let middle = start + cols;
        let end = middle + cols;
        copies::copy(&x[first..first + cols], &mut out[start..middle]);
        spreads::spread(profile, &y[second..second + right], &mut out[middle..end]);
    }
}

// Writes [t1 t2], `rows` by 2 cols.
pub(crate) fn write_t(
    profile: Profile,
    t1: &[u64],
    t2: &[u64],
    rows: usize,
    cols: usize,
    out: &mut [u64],
)
    requires { (length t1.now ≡ rows * cols) × (length t2.now ≡ rows * right_for cols profile)
        × (length out.old ≡ rows * (2 * cols)) × (2 * cols < 2 ^ 64) }
    ensures { out.new
        ≡ residues rows (2 * cols) (beside cols (unsigned cols t1.now)
        (spread profile (unsigned (right_for cols profile) t2.now))) }
{
    write_beside(profile, t1, t2, rows, cols, out);
}

// Writes [v-transposed d2], cols by 2 cols, row by row.
fn write_lower(profile: Profile, v: &[i64], d2: &[i64], cols: usize, out: &mut [i64])
    requires { (length v.now ≡ cols * right_for cols profile)
        × (length d2.now ≡ right_for cols profile * right_for cols profile)
        × (length out.old ≡ cols * (2 * cols)) × (2 * cols < 2 ^ 64) }
    ensures { out.new
        ≡ table cols (2 * cols)
        (beside cols (transposed (spread profile (signed (right_for cols profile) v.now)))
        (spread_both profile (signed (right_for cols profile) d2.now))) }
{
    let right = profile.right(cols);
    for i in 0..cols {
        let place = spreads::column_of(profile, i);
        let second = place * right;
        let start = i * (2 * cols);
        let middle = start + cols;
        let end = middle + cols;
        copy_column(v, cols, right, place, &mut out[start..middle]);
        spreads::spread(profile, &d2[second..second + right], &mut out[middle..end]);
    }
}

// Writes the joined D, [d1 v; v-transposed d2].
pub(crate) fn write_d(
    accepted: &AcceptedSetting,
    profile: Profile,
    d1: &[i64],
    v: &[i64],
    d2: &[i64],
    out: &mut [i64],
)
    requires { Fits (joined_D (parameters_in accepted.now)) out.old
        × Fits (matrix_D (parameters_in accepted.now)) d1.now × Fits (sent_V (parameters_in accepted.now) profile) v.now
        × Fits (right_D (parameters_in accepted.now) profile) d2.now }
    ensures { out.new
        ≡ (joined_D (parameters_in accepted.now)).write (blocks accepted.now.setting.t
        ((matrix_D (parameters_in accepted.now)).read d1.now)
        (spread profile ((sent_V (parameters_in accepted.now) profile).read v.now))
        (spread_both profile ((right_D (parameters_in accepted.now) profile).read d2.now))) }
{
    let cols = accepted.setting.t;
    let middle = cols * (2 * cols);
    write_beside(profile, d1, v, cols, cols, &mut out[..middle]);
    write_lower(profile, v, d2, cols, &mut out[middle..]);
}

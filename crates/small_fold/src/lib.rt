// A matrix of small numbers times a decoded challenge, stored by columns, by sums of 32 products.
#![tactic(auto)]

ghost use Rattle.std.specs.Prelude.{◌≡◌, ◌+◌, ◌*◌, ◌≤◌, length};
ghost use Rattle.integers.specs.Lists.{build};
ghost use Rattle.matrices.specs.Matrices.{product};
ghost use Rattle.matrices.specs.Tables.{table, signed};
ghost use Rattle.small_rows.specs.Small.{Within, SmallMatrix};
ghost use Rattle.small_rows.specs.Columns.{by_columns};
ghost use Rattle.dots.specs.Dots.{dots};
ghost use Rattle.small_fold.specs.Padded.{Padded};

mod packing;

// The row p times the n numbers of q from y on, by steps of 32: past n the row has zeros.
fn dot(p: &[i16], q: &[i16], y: usize, n: usize) -> i64
    requires { Padded 32767 n p.now × Within 16 q.now × (y + 512 ≤ length q.now) }
    ensures { result ≡ dots p.now q.now 0 y n }
{
    let mut a: i64 = 0;
    // By `div_ceil`: `step_by` grew this innermost loop from 25 to 29 instructions, with a second compare.
    for i in 0..n.div_ceil(32) {
        let k = i * 32;
        let v = dots::thirty_two(p, q, k, y + k);
        a += v as i64;
    }
    a
}

// The row p times each column of q.
fn fold_row(p: &[i16], q: &[i16], n: usize, t: usize, out: &mut [i64])
    requires { Padded 32767 n p.now × Within 16 q.now × (t * 512 ≤ length q.now)
        × (length out.old ≡ t) }
    ensures { out.new ≡ build t (λ j. dots p.now q.now 0 (j * 512) n) }
{
    for (j, x) in out.iter_mut().enumerate() {
        *x = dot(p, q, j * 512, n);
    }
}

// The product by rows packed into 16 bits.
fn packed_fold(s: &[i64], q: &[i16], m: usize, n: usize, t: usize, out: &mut [i64])
    requires { SmallMatrix 32767 m n s.now × Within 16 q.now × (t * 512 ≤ length q.now)
        × (length out.old ≡ m * t) }
    ensures { out.new
        ≡ table m t (product n (signed n s.now) (by_columns q.now)) }
{
    let mut p = [0i16; 512];
    // By ranges: there may be no columns, and `chunks_exact` takes no size of 0.
    for r in 0..m {
        packing::load(s, m, n, r, &mut p[..n]);
        let from = r * t;
        let to = from + t;
        fold_row(&p, q, n, t, &mut out[from..to]);
    }
}

// The product by rows as they are stored.
fn plain_fold(s: &[i64], q: &[i16], m: usize, n: usize, t: usize, out: &mut [i64])
    requires { SmallMatrix 32767 m n s.now × Within 16 q.now × (t * 512 ≤ length q.now)
        × (length out.old ≡ m * t) }
    ensures { out.new
        ≡ table m t (product n (signed n s.now) (by_columns q.now)) }
{
    // By ranges: there may be no columns, and `chunks_exact` takes no size of 0.
    for i in 0..m {
        let from = i * n;
        let to = from + n;
        let start = i * t;
        let end = start + t;
        challenges::fold_row(&s[from..to], q, t, &mut out[start..end]);
    }
}

// s, an m by n matrix, times q, which has n rows and t columns of 512 places: S' of the digits S~. A row of fewer than
// 16 numbers fills less than half of one sum of 32 products.
// q is a slice and no type, as `challenges` decodes it: an array that is filled in part.
pub fn small_fold(s: &[i64], q: &[i16], m: usize, n: usize, t: usize, out: &mut [i64])
    requires { SmallMatrix 32767 m n s.now × Within 16 q.now × (t * 512 ≤ length q.now)
        × (length out.old ≡ m * t) }
    ensures { out.new
        ≡ table m t (product n (signed n s.now) (by_columns q.now)) }
{
    if n < 16 {
        plain_fold(s, q, m, n, t, out);
    } else {
        packed_fold(s, q, m, n, t, out);
    }
}

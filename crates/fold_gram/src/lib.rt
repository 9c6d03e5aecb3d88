// C transposed times D times C, for a decoded challenge C, stored by columns, and a symmetric D, stored as its lower
// triangle. Only the triangle is summed: let L have D's entries below the diagonal twice, those on it once and zeros
// above it. L + L transposed is 2 D, so where N is C transposed times L times C, what is wanted is half of N + N
// transposed.
#![tactic(auto)]

ghost use Rattle.std.specs.Prelude.{◌≡◌, ◌+◌, ◌*◌, ◌^◌, ◌<◌, ◌≤◌, length};
ghost use Rattle.integers.specs.Lists.{build};
ghost use Rattle.matrices.specs.Matrices.{product, transposed, both_sides};
ghost use Rattle.matrices.specs.Tables.{table, signed};
ghost use Rattle.matrices.specs.Triangles.{triangular, mirrored};
ghost use Rattle.small_rows.specs.Small.{Within};
ghost use Rattle.small_rows.specs.Columns.{by_columns};
ghost use Rattle.fold_gram.specs.Halves.{below_twice, mean, corner};

mod multiples;

// Row i of C transposed times L.
fn left_row(d: &[i64], q: &[i16], n: usize, i: usize, e: &mut [i64])
    requires { (length d.now ≡ triangular n) × Within (2 ^ 31) d.now × Within 16 q.now × (n ≤ 512)
        × (i * 512 + 512 ≤ length q.now) × (length e.old ≡ n) }
    ensures { e.new
        ≡ build n (product n (transposed (by_columns q.now)) (below_twice d.now) i) }
{
    let mut from: usize = 0;
    for k in 0..n {
        let to = from + k;
        let v = q[i * 512 + k];
        multiples::add_row(&d[from..to], v, &mut e[..k]);
        e[k] = (v as i64) * d[to];
        from = to + 1;
    }
}

// Puts the mean of each number of row i, the last, up to the diagonal and its mirror image in both places.
fn settle(t: usize, i: usize, out: &mut [i64])
    requires { (i < t) × (length out.old ≡ (i + 1) * t) × Within (2 ^ 60) out.old }
    ensures { out.new ≡ table (i + 1) t (corner i (signed t out.old)
        (corner (i + 1) (mean (signed t out.old)) (signed t out.old))) }
{
    for j in 0..=i {
        let low = i * t + j;
        let high = j * t + i;
        let x = (out[low] + out[high]) / 2;
        out[high] = x;
        out[low] = x;
    }
}

// C transposed times D times C, with e for a row of C transposed times L.
fn fold_rows(d: &[i64], q: &[i16], n: usize, t: usize, e: &mut [i64], out: &mut [i64])
    requires { (length d.now ≡ triangular n) × Within (2 ^ 31) d.now × (n ≤ 512) × Within 16 q.now
        × (t * 512 ≤ length q.now) × (length e.old ≡ n) × (length out.old ≡ t * t) }
    ensures { out.new
        ≡ table t t (both_sides n (by_columns q.now) (mirrored d.now)) }
{
    for i in 0..t {
        left_row(d, q, n, i, e);
        let from = i * t;
        let to = from + t;
        challenges::fold_row(e, q, t, &mut out[from..to]);
        settle(t, i, &mut out[..to]);
    }
}

// C transposed times D times C: D' of the digit products D~. q has n rows and t columns of 512 places; its numbers may
// be sums of 16 of a challenge's. Few columns need no room for 512, which would have to be cleared.
// q is a slice and no type, as `challenges` decodes it: an array that is filled in part.
pub fn fold_gram(d: &[i64], q: &[i16], n: usize, t: usize, out: &mut [i64])
    requires { (length d.now ≡ triangular n) × Within (2 ^ 31) d.now × (n ≤ 512) × Within 16 q.now
        × (t * 512 ≤ length q.now) × (length out.old ≡ t * t) }
    ensures { out.new
        ≡ table t t (both_sides n (by_columns q.now) (mirrored d.now)) }
{
    // A local array is cleared at each call, so few columns take a small one; with the size as a const parameter
    // `fold_rows` would be compiled once for each, which costs code size.
    if n <= 32 {
        fold_rows(d, q, n, t, &mut [0i64; 32][..n], out);
    } else {
        fold_rows(d, q, n, t, &mut [0i64; 512][..n], out);
    }
}

// The folds by a challenge, from its bytes: S' = S~ C; T' = T~ C modulo 2^64 with D' = C transposed times D~ times C.
// The challenge is decoded once, into a local array: C has one row for the rows in the same place of each of its
// blocks, and those rows are added up, as S~, T~ and D~ have one column for them.
#![tactic(auto)]

ghost use Rattle.std.specs.Prelude.{◌≡◌, ◌*◌, ◌^◌, ◌≤◌, length};
ghost use Rattle.matrices.specs.Matrices.{product, both_sides};
ghost use Rattle.matrices.specs.Tables.{table, residues, signed, unsigned};
ghost use Rattle.matrices.specs.Triangles.{triangular, mirrored};
ghost use Rattle.small_rows.specs.Small.{Within, SmallMatrix};
ghost use Rattle.challenges.specs.Challenges.{rows_of, folded};

use challenges::Challenge;

// S' with q, zeros so far, for the decoded challenge.
fn fold_digits_in(ss: &[i64], c: Challenge, m: usize, q: &mut [i16], s: &mut [i64])
    requires { SmallMatrix 32767 m (rows_of c) ss.now × (length s.old ≡ m * c.columns)
        × (c.columns * 512 ≤ length q.old) × Within 16 q.old }
    ensures { s.new ≡ table m c.entry.columns
        (product (rows_of c.entry) (signed (rows_of c.entry) ss.now) (folded c.entry)) }
{
    let rows = c.left + c.block;
    c.decode(q);
    small_fold::small_fold(ss, q, m, rows, c.columns, s);
}

// Writes s = S' = S~ C: S~ has m rows and a column for each row of C. Few columns of C need no room for 16, which would
// have to be cleared.
pub fn fold_digits(ss: &[i64], c: Challenge, m: usize, s: &mut [i64])
    requires { SmallMatrix 32767 m (rows_of c) ss.now × (c.columns ≤ 16) × (length s.old ≡ m * c.columns) }
    ensures { s.new ≡ table m c.entry.columns
        (product (rows_of c.entry) (signed (rows_of c.entry) ss.now) (folded c.entry)) }
{
    // A local array is cleared at each call, so few columns take a small one; with the size as a const parameter
    // `fold_digits_in` would be compiled once for each, which costs code size.
    match c.columns {
        1 => fold_digits_in(ss, c, m, &mut [0i16; 512], s),
        2..=4 => fold_digits_in(ss, c, m, &mut [0i16; 2048], s),
        _ => fold_digits_in(ss, c, m, &mut [0i16; 8192], s),
    }
}

// T' and D' with q, zeros so far, for the decoded challenge.
fn fold_instance_in(
    tt: &[u64],
    dd: &[i64],
    c: Challenge,
    n: usize,
    q: &mut [i16],
    t: &mut [u64],
    d: &mut [i64],
)
    requires { (length tt.now ≡ n * rows_of c) × (length dd.now ≡ triangular (rows_of c)) × Within (2 ^ 31) dd.now
        × (rows_of c ≤ 512) × (length t.old ≡ n * c.columns) × (length d.old ≡ c.columns * c.columns)
        × (c.columns * 512 ≤ length q.old) × Within 16 q.old }
    ensures t_after { t.new ≡ residues n c.entry.columns
        (product (rows_of c.entry) (unsigned (rows_of c.entry) tt.now) (folded c.entry)) }
    ensures d_after { d.new ≡ table c.entry.columns c.entry.columns
        (both_sides (rows_of c.entry) (folded c.entry) (mirrored dd.now)) }
{
    let rows = c.left + c.block;
    c.decode(q);
    word_folds::fold_commitment(tt, q, n, rows, c.columns, t);
    fold_gram::fold_gram(dd, q, rows, c.columns, d);
}

// Writes t = T' = T~ C modulo 2^64 and d = D' = C transposed times D~ times C: T~ has n rows and a column for each row
// of C. Few columns of C need no room for 16 here either.
pub fn fold_instance(tt: &[u64], dd: &[i64], c: Challenge, n: usize, t: &mut [u64], d: &mut [i64])
    requires { (length tt.now ≡ n * rows_of c) × (length dd.now ≡ triangular (rows_of c)) × Within (2 ^ 31) dd.now
        × (rows_of c ≤ 512) × (c.columns ≤ 16) × (length t.old ≡ n * c.columns)
        × (length d.old ≡ c.columns * c.columns) }
    ensures t_after { t.new ≡ residues n c.entry.columns
        (product (rows_of c.entry) (unsigned (rows_of c.entry) tt.now) (folded c.entry)) }
    ensures d_after { d.new ≡ table c.entry.columns c.entry.columns
        (both_sides (rows_of c.entry) (folded c.entry) (mirrored dd.now)) }
{
    // Three sizes, and no const parameter, as above.
    match c.columns {
        1 => fold_instance_in(tt, dd, c, n, &mut [0i16; 512], t, d),
        2..=4 => fold_instance_in(tt, dd, c, n, &mut [0i16; 2048], t, d),
        _ => fold_instance_in(tt, dd, c, n, &mut [0i16; 8192], t, d),
    }
}

// Rows of small numbers in 16 bits, laid out by columns, so that the numbers of a sum of products stand side by side.
ghost use Rattle.std.specs.Prelude.{◌+◌, ◌*◌, ◌<◌, ◌≤◌, length};
ghost use Rattle.matrices.specs.Tables.{signed};
ghost use Rattle.small_rows.specs.Small.{Within, SmallMatrix};
ghost use Rattle.small_rows.specs.Columns.{Columns};

// Puts row base + k of s at place k of each column of 32.
fn pack_row(s: &[i64], m: usize, n: usize, base: usize, k: usize, p: &mut [i16])
    requires small_matrix { SmallMatrix 32767 m n s.now × (base ≤ 4096) × (k < 32) × (n * 32 ≤ length p.old) }
    requires columns { Columns 32767 32 n (λ i j. signed n s.now (base + i) j) (k * n) p.old }
    ensures { Columns 32767 32 n (λ i j. signed n s.now (base + i) j) (k * n + n)
        p.new }
{
    let r = base + k;
    for c in 0..n {
        p[c * 32 + k] = small_rows::fetch(s, m, n, r, c);
    }
}

// Puts 32 rows of s, from `base` on, into p by columns, with zeros past the last row.
pub(crate) fn pack(s: &[i64], m: usize, n: usize, base: usize, p: &mut [i16])
    requires { SmallMatrix 32767 m n s.now × (base ≤ 4096) × (n * 32 ≤ length p.old)
        × Within 32767 p.old }
    ensures { Columns 32767 32 n (λ i j. signed n s.now (base + i) j) (32 * n)
        p.new }
{
    for k in 0..32 {
        pack_row(s, m, n, base, k, p);
    }
}

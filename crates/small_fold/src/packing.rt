// A row in 16 bits.
ghost use Rattle.std.specs.Prelude.{◌≡◌, length};
ghost use Rattle.integers.specs.Lists.{build};
ghost use Rattle.matrices.specs.Tables.{signed};
ghost use Rattle.small_rows.specs.Small.{SmallMatrix};

// Puts row r of s into p.
pub(crate) fn load(s: &[i64], m: usize, n: usize, r: usize, p: &mut [i16])
    requires { SmallMatrix 32767 m n s.now × (length p.old ≡ n) }
    ensures { p.new ≡ build n (signed n s.now r) }
{
    for (k, x) in p.iter_mut().enumerate() {
        *x = small_rows::fetch(s, m, n, r, k);
    }
}

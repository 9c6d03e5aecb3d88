// Small signed numbers: the row of zeros that a sum of their products starts from, and an entry in 16 bits.
#![tactic(auto)]

ghost use Rattle.std.specs.Prelude.{◌≡◌, pos, length, replicate, ◌<◌};
ghost use Rattle.matrices.specs.Tables.{signed};
ghost use Rattle.small_rows.specs.Small.{SmallMatrix};

// Fills d with zeros. A name of ours for `fill`: `cross_products` cites its contract, and must-fail has a wrong version
// of it.
pub fn clear(d: &mut [i64])
    ensures { d.new ≡ replicate (length d.old) (pos 0) }
{
    d.fill(0);
}

// Row r and column c of s, or 0 past its last row.
// A small matrix is a slice and its sizes, since C lends it so (`product_dd`, `product_s`).
pub fn fetch(s: &[i64], m: usize, n: usize, r: usize, c: usize) -> i16
    requires { SmallMatrix 32767 m n s.now × (c < n) }
    ensures { result ≡ signed n s.now r c }
{
    if r < m { s[r * n + c] as i16 } else { 0 }
}

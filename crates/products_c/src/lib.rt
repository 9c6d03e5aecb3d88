// The digits and the four costly products as C functions, so that the speed table can time each of them alone, and the
// wrapping product and T', for the gate's look at machine code. A caller from C owes what the `requires` say;
// `include/lova.h` has the functions to use.
#![tactic(auto)]

ghost use Rattle.std.specs.Prelude.{◌≡◌, ◌*◌, ◌%◌, ◌^◌, ◌≤◌, ◌<◌, length};
ghost use Rattle.matrices.specs.Matrices.{product, gram, both_sides};
ghost use Rattle.matrices.specs.Tables.{table, residues, signed, unsigned, challenge};
ghost use Rattle.matrices.specs.Triangles.{triangular, lower, mirrored};
ghost use Rattle.digits.specs.Bases.{AllInReach};
ghost use Rattle.digits.specs.Digits.{row_digits};
ghost use Rattle.small_rows.specs.Small.{Within, SmallMatrix, SmallBlocks};
ghost use Rattle.small_rows.specs.Columns.{by_columns};

use challenges::Challenge;

// x * y modulo 2^64.
#[unsafe(no_mangle)]
pub extern "C" fn product_word(x: u64, y: u64) -> u64
    ensures { result ≡ (x * y) % 2 ^ 64 }
{
    integers::wrapping_mul(x, y)
}

// S~: the k digits of each entry of s.
#[unsafe(no_mangle)]
pub extern "C" fn digits_ss(s: &[i64], b: u64, k: usize, out: &mut [i64])
    requires { (2 ≤ b) × (b < 2 ^ 16) × AllInReach b s.now × (length out.old ≡ length s.now * k) }
    ensures { out.new ≡ row_digits b k s.now }
{
    digits::write_row(s, digits::Base::new(b), k, out);
}

// D~: the Gram matrix of s, an m by `cols` matrix, as its lower triangle.
#[unsafe(no_mangle)]
pub extern "C" fn product_dd(s: &[i64], m: usize, cols: usize, out: &mut [i64])
    requires { SmallMatrix 32767 m cols s.now × SmallBlocks cols s.now × (m ≤ 4096)
        × (length out.old ≡ triangular cols) }
    ensures { out.new ≡ lower cols (gram m (signed cols s.now)) }
{
    small_gram::small_gram(s, m, cols, out);
}

// T~: a, n by m, times s, m by `cols`, modulo 2^64.
#[unsafe(no_mangle)]
pub extern "C" fn product_tt(a: &[u64], s: &[i64], n: usize, m: usize, cols: usize, out: &mut [u64])
    requires { (length a.now ≡ n * m) × (length s.now ≡ m * cols) × (length out.old ≡ n * cols) }
    ensures { out.new
        ≡ residues n cols (product m (unsigned m a.now) (signed cols s.now)) }
{
    word_products::commitment(a, s, n, m, cols, out);
}

// T': x, n by `cols`, times a decoded challenge q, `cols` by t, modulo 2^64. It is not timed: the gate looks at its
// loop.
#[unsafe(no_mangle)]
pub extern "C" fn product_t(x: &[u64], q: &[i16], n: usize, cols: usize, t: usize, out: &mut [u64])
    requires { (length x.now ≡ n * cols) × (cols ≤ 512) × (t * 512 ≤ length q.now)
        × (length out.old ≡ n * t) }
    ensures { out.new
        ≡ residues n t (product cols (unsigned cols x.now) (by_columns q.now)) }
{
    word_folds::fold_commitment(x, q, n, cols, t, out);
}

// D': c transposed times D~ times c, for a challenge c, n by t, and the lower triangle d of D~. T' beside it is that of
// no rows.
#[unsafe(no_mangle)]
pub extern "C" fn product_d(d: &[i64], c: &[u8], n: usize, t: usize, out: &mut [i64])
    requires { (length d.now ≡ triangular n) × Within (2 ^ 31) d.now × (n ≤ 512) × (t ≤ 16)
        × (length c.now ≡ n * t) × (length out.old ≡ t * t) }
    ensures { out.new
        ≡ table t t (both_sides n (challenge t c.now) (mirrored d.now)) }
{
    challenge_folds::fold_instance(&[], d, Challenge::plain(c, n, t), 0, &mut [], out);
}

// S': s, m by n, times a challenge c, n by t.
#[unsafe(no_mangle)]
pub extern "C" fn product_s(s: &[i64], c: &[u8], m: usize, n: usize, t: usize, out: &mut [i64])
    requires { SmallMatrix 32767 m n s.now × (t ≤ 16) × (length c.now ≡ n * t)
        × (length out.old ≡ m * t) }
    ensures { out.new
        ≡ table m t (product n (signed n s.now) (challenge t c.now)) }
{
    challenge_folds::fold_digits(s, Challenge::plain(c, n, t), m, out);
}

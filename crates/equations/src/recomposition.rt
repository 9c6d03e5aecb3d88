// Blocks of entries summed up by powers, as a number is by its digits: exactly, and modulo 2^64.
ghost use Rattle.std.specs.Prelude.{◌≡◌, ℕ, ◌+◌, ◌*◌, ◌^◌, ◌<◌, ◌≤◌, pos, nat_abs, ◌*ℤ◌, length, get_or};
ghost use Rattle.integers.specs.Sums.{sum, sum_ℕ};
ghost use Rattle.integers.specs.Residues.{word};
ghost use Rattle.matrices.specs.Triangles.{triangular};
ghost use Rattle.equations.specs.Blocks.{Small, row_sum, row_term};

// k entries of x, from `start` on, each times its power, exactly: no partial sum leaves a signed word.
fn weighted(x: &[i64], start: usize, powers: &[u64], k: usize) -> i64
    requires k_in_bounds { (start + k ≤ length x.now) × (k ≤ length powers.now)
        × ((q : ℕ) → q < k → get_or powers.now q 0 < 2 ^ 63) }
    requires q_bound { sum_ℕ k (λ q. nat_abs (get_or x.now (start + q) (pos 0) *ℤ pos (get_or powers.now q 0)))
        < 2 ^ 63 }
    ensures { result
        ≡ sum k (λ q. get_or x.now (start + q) (pos 0) *ℤ pos (get_or powers.now q 0)) }
{
    let mut sum: i64 = 0;
    for q in 0..k {
        sum = matrices::add_product(sum, x[start + q], powers[q] as i64);
    }
    sum
}

// Row q of block (i, j) of the square of which x is the lower triangle, each entry times the power of its column. Of a
// block on the diagonal the row is stored up to the diagonal: what is before it counts twice, for its mirror image too.
fn block_row(x: &[i64], i: usize, j: usize, powers: &[u64], k: usize, q: usize) -> i64
    requires { (q < k) × (j ≤ i) × (triangular (i * k + k) ≤ length x.now)
        × Small x.now powers.now k }
    ensures { result ≡ row_sum x.now powers.now k i j q }
{
    let row = i * k + q;
    let start = row * (row + 1) / 2 + j * k;
    if j < i {
        return weighted(x, start, powers, k);
    }
    let below = weighted(x, start, powers, q);
    matrices::add_product(below + below, x[start + q], powers[q] as i64)
}

// The sum of block (i, j), j <= i, of k rows and k columns: each entry times the powers of its column and of its row,
// exactly.
pub(crate) fn weighted_block(x: &[i64], i: usize, j: usize, powers: &[u64], k: usize) -> i64
    requires { (j ≤ i) × (triangular (i * k + k) ≤ length x.now) × Small x.now powers.now k }
    ensures { result ≡ sum k (row_term x.now powers.now k i j) }
{
    let mut sum: i64 = 0;
    for q in 0..k {
        let row = block_row(x, i, j, powers, k, q);
        sum = matrices::add_product(sum, row, powers[q] as i64);
    }
    sum
}

// k entries of x, from `start` on, each times its power, modulo 2^64. No generic function with `weighted`: this one
// asks no bound of its caller, and a trait would be longer than both loops.
pub(crate) fn weighted_words(x: &[u64], start: usize, powers: &[u64], k: usize) -> u64
    requires { (start + k ≤ length x.now) × (k ≤ length powers.now) }
    ensures { result
        ≡ word
        (sum k (λ q. pos (get_or x.now (start + q) 0) *ℤ pos (get_or powers.now q 0))) }
{
    let mut sum: u64 = 0;
    for q in 0..k {
        sum = matrices::add_word_product(sum, x[start + q], powers[q]);
    }
    sum
}

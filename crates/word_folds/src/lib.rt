// The product T~ C modulo 2^64 of a matrix of words, stored by rows, and a decoded challenge, stored by columns.
#![tactic(auto)]

ghost use Rattle.std.specs.Prelude.{◌≡◌, ◌+◌, ◌*◌, ◌≤◌, length};
ghost use Rattle.integers.specs.Lists.{build};
ghost use Rattle.integers.specs.Residues.{word};
ghost use Rattle.matrices.specs.Matrices.{product};
ghost use Rattle.matrices.specs.Tables.{residues, unsigned};
ghost use Rattle.small_rows.specs.Columns.{by_columns};
ghost use Rattle.word_rows.specs.Rows.{row_times};

// The row x, of `cols` words, times column j of q. It goes from the last product down: upwards the compiler would make
// vectors of the products, which have no 64-bit multiply and take longer than one multiply each.
fn fold_column(x: &[u64], q: &[i16], cols: usize, j: usize) -> u64
    requires { (length x.now ≡ cols) × (cols ≤ 512) × (j * 512 + 512 ≤ length q.now) }
    ensures { result ≡ word (row_times cols x.now (by_columns q.now) j) }
{
    let mut sum: u64 = 0;
    for k in (0..cols).rev() {
        let y = q[j * 512 + k];
        sum = matrices::add_signed_product(sum, x[k], y as i64);
    }
    sum
}

// The row x, of `cols` words, times the first t columns of q.
fn fold_row(x: &[u64], q: &[i16], cols: usize, t: usize, row: &mut [u64])
    requires { (length x.now ≡ cols) × (cols ≤ 512) × (t * 512 ≤ length q.now)
        × (length row.old ≡ t) }
    ensures { row.new
        ≡ build t (λ j. word (row_times cols x.now (by_columns q.now) j)) }
{
    for (j, out) in row.iter_mut().enumerate() {
        *out = fold_column(x, q, cols, j);
    }
}

// x times q modulo 2^64, as T' is T~ C: x has n rows and `cols` columns, q has `cols` rows and t columns of 512 places.
// q is a slice and no type: `product_t` is lent it by C.
pub fn fold_commitment(x: &[u64], q: &[i16], n: usize, cols: usize, t: usize, out: &mut [u64])
    requires { (length x.now ≡ n * cols) × (cols ≤ 512) × (t * 512 ≤ length q.now)
        × (length out.old ≡ n * t) }
    ensures { out.new
        ≡ residues n t (product cols (unsigned cols x.now) (by_columns q.now)) }
{
    // By ranges: there may be no columns, and `chunks_exact` takes no size of 0.
    for i in 0..n {
        let from = i * cols;
        let to = from + cols;
        let start = i * t;
        let end = start + t;
        fold_row(&x[from..to], q, cols, t, &mut out[start..end]);
    }
}

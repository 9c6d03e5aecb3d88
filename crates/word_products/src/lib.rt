// The product A S modulo 2^64 of a matrix of words and a witness, stored by rows.
// Rows are cut by their ranges: `chunks_exact` asks for a width above 0, which `commitment` does not ask of callers.
#![tactic(auto)]

ghost use Rattle.std.specs.Prelude.{◌≡◌, ◌+◌, ◌*◌, ◌<◌, ◌≤◌, length};
ghost use Rattle.integers.specs.Lists.{build};
ghost use Rattle.integers.specs.Residues.{word};
ghost use Rattle.matrices.specs.Matrices.{product};
ghost use Rattle.matrices.specs.Tables.{residues, signed, unsigned};
ghost use Rattle.matrices.specs.Elements.{modulo, Added};
ghost use Rattle.word_rows.specs.Rows.{row_times};

mod multiples;

// How many rows of s a block takes: 128 of the widest fill half a megabyte of the cache.
const BLOCK: usize = 128;

// Adds the row x times s to `row`, four rows of s a pass while four are left, and answers how many rows it took. A loop
// that chose between four rows and one in every pass would be slower.
fn add_fours(x: &[u64], s: &[i64], cols: usize, row: &mut [u64]) -> usize
    requires { (length s.now ≡ length x.now * cols) × (length row.old ≡ cols) }
    ensures { (result ≤ length x.now)
        × Added modulo (row_times result x.now (signed cols s.now)) 0 (length row.old)
        row.old row.new }
{
    let fours = x.len() / 4;
    for four in 0..fours {
        let k = 4 * four;
        let start = k * cols;
        let end = start + 4 * cols;
        multiples::add_four_rows(&x[k..k + 4], &s[start..end], cols, row);
    }
    4 * fours
}

// Adds the row x times s to `row`: fours first, and the last rows one by one.
fn add_rows(x: &[u64], s: &[i64], cols: usize, row: &mut [u64])
    requires { (length s.now ≡ length x.now * cols) × (length row.old ≡ cols) }
    ensures { Added modulo
        (row_times (length x.now) x.now (signed cols s.now)) 0
        (length row.old) row.old row.new }
{
    let taken = add_fours(x, s, cols, row);
    for k in taken..x.len() {
        let start = k * cols;
        let end = start + cols;
        multiples::add_row(x[k], &s[start..end], row);
    }
}

// Writes the row x, of at least one word, times s into `row`: the products of the first row of s are written, and those
// of the others are added.
fn write_rows(x: &[u64], s: &[i64], cols: usize, row: &mut [u64])
    requires { (length s.now ≡ length x.now * cols) × (length row.old ≡ cols)
        × (0 < length x.now) }
    ensures { row.new
        ≡ build cols
        (λ j. word (row_times (length x.now) x.now (signed cols s.now) j)) }
{
    multiples::write_row(x[0], &s[..cols], row);
    add_rows(&x[1..], &s[cols..], cols, row);
}

// Takes `out` from the product of the first `base` columns of a and rows of s to that of the first base + len. Every
// row of a meets the same `len` rows of s, so that these stay in the cache.
fn add_block(
    a: &[u64],
    s: &[i64],
    n: usize,
    m: usize,
    cols: usize,
    base: usize,
    len: usize,
    out: &mut [u64],
)
    requires a_len { (length a.now ≡ n * m) × (length s.now ≡ m * cols) × (base + len ≤ m) }
    requires out_value { out.old ≡ residues n cols (product base (unsigned m a.now) (signed cols s.now)) }
    ensures { out.new
        ≡ residues n cols (product (base + len) (unsigned m a.now) (signed cols s.now)) }
{
    let top = base * cols;
    let bottom = top + len * cols;
    for i in 0..n {
        let from = i * m + base;
        let to = from + len;
        let start = i * cols;
        let end = start + cols;
        add_rows(&a[from..to], &s[top..bottom], cols, &mut out[start..end]);
    }
}

// a times s, block by block of the rows of s.
// Six values, since `product_tt` is given them one by one from C.
fn commit_wide(a: &[u64], s: &[i64], n: usize, m: usize, cols: usize, out: &mut [u64])
    requires { (length a.now ≡ n * m) × (length s.now ≡ m * cols) × (length out.old ≡ n * cols) }
    ensures { out.new
        ≡ residues n cols (product m (unsigned m a.now) (signed cols s.now)) }
{
    word_rows::clear_row(out);
    for base in (0..m).step_by(BLOCK) {
        add_block(a, s, n, m, cols, base, BLOCK.min(m - base), out);
    }
}

// The row x times column j of s. Its entries are found by adding: k * cols + j would be a multiplication more for each
// product, and `skip(j).step_by(cols)` a second compare, of what is left of s with the step.
fn times_column(x: &[u64], s: &[i64], cols: usize, j: usize) -> u64
    requires { (length s.now ≡ length x.now * cols) × (j < cols) }
    ensures { result ≡ word (row_times (length x.now) x.now (signed cols s.now) j) }
{
    let mut sum: u64 = 0;
    let mut at = j;
    for word in x {
        sum = matrices::add_signed_product(sum, *word, s[at]);
        at += cols;
    }
    sum
}

// Writes the row x times s into `row`, column by column: each sum is stored once.
fn write_columns(x: &[u64], s: &[i64], cols: usize, row: &mut [u64])
    requires { (length s.now ≡ length x.now * cols) × (length row.old ≡ cols) }
    ensures { row.new
        ≡ build cols
        (λ j. word (row_times (length x.now) x.now (signed cols s.now) j)) }
{
    for (j, word) in row.iter_mut().enumerate() {
        *word = times_column(x, s, cols, j);
    }
}

// Writes the row x, of at least one word, times s into `row`: a short row by the rows of s, a longer one by its
// columns.
fn write_product(x: &[u64], s: &[i64], cols: usize, row: &mut [u64])
    requires { (length s.now ≡ length x.now * cols) × (length row.old ≡ cols)
        × (0 < length x.now) }
    ensures { row.new
        ≡ build cols
        (λ j. word (row_times (length x.now) x.now (signed cols s.now) j)) }
{
    if x.len() < 4 {
        write_rows(x, s, cols, row);
    } else {
        write_columns(x, s, cols, row);
    }
}

// a times s, row by row, where s has at least one row: nothing has to be cleared before.
fn commit_rows(a: &[u64], s: &[i64], n: usize, m: usize, cols: usize, out: &mut [u64])
    requires { (length a.now ≡ n * m) × (length s.now ≡ m * cols) × (length out.old ≡ n * cols)
        × (0 < m) }
    ensures { out.new
        ≡ residues n cols (product m (unsigned m a.now) (signed cols s.now)) }
{
    for i in 0..n {
        let from = i * m;
        let to = from + m;
        let start = i * cols;
        let end = start + cols;
        write_product(&a[from..to], s, cols, &mut out[start..end]);
    }
}

// a times s, entry by entry: each sum is stored once.
fn commit_narrow(a: &[u64], s: &[i64], n: usize, m: usize, cols: usize, out: &mut [u64])
    requires { (length a.now ≡ n * m) × (length s.now ≡ m * cols) × (length out.old ≡ n * cols) }
    ensures { out.new
        ≡ residues n cols (product m (unsigned m a.now) (signed cols s.now)) }
{
    for (e, word) in out.iter_mut().enumerate() {
        let from = e / cols * m;
        let to = from + m;
        *word = times_column(&a[from..to], s, cols, e % cols);
    }
}

// a times s modulo 2^64, as T~ is A S~: a has n rows and m columns, s has m rows and `cols` columns. With fewer than
// four columns a product of the blocks would wait for the sum that the one before it stored in the same word, and with
// one to three rows of s, clearing `out` would cost as much as adding a row. Only in a long sum does the division that
// finds an entry's place not count; there the loop over entries reads a, which the first cache does not hold, faster
// than that over rows.
pub fn commitment(a: &[u64], s: &[i64], n: usize, m: usize, cols: usize, out: &mut [u64])
    requires { (length a.now ≡ n * m) × (length s.now ≡ m * cols) × (length out.old ≡ n * cols) }
    ensures { out.new
        ≡ residues n cols (product m (unsigned m a.now) (signed cols s.now)) }
{
    if cols < 4 && 512 <= m {
        commit_narrow(a, s, n, m, cols, out);
    } else if 0 < m && (m < 4 || cols < 4) {
        commit_rows(a, s, n, m, cols, out);
    } else {
        commit_wide(a, s, n, m, cols, out);
    }
}

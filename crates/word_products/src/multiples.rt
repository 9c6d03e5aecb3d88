// Multiples of words and rows, written into a row or added to a word or a row modulo 2^64.
// Not one with those of `cross_products`: an exact sum asks for room, which a trait would carry into each contract
// here; and the row that is added goes the other way there.
ghost use Rattle.std.specs.Prelude.{◌≡◌, ◌*◌, ◌<◌, pos, ◌+ℤ◌, ◌*ℤ◌, length, get_or};
ghost use Rattle.integers.specs.Lists.{build};
ghost use Rattle.integers.specs.Residues.{word};
ghost use Rattle.matrices.specs.Tables.{signed};
ghost use Rattle.matrices.specs.Elements.{modulo, Added};
ghost use Rattle.word_rows.specs.Rows.{row_times};

// Writes x times the row y into `row`, two words a turn: of a loop with one the compiler would make vectors, which have
// no 64-bit multiply. By an index: an odd last word would need a tail of its own after `chunks_exact(2)` all the same.
pub(crate) fn write_row(x: u64, y: &[i64], row: &mut [u64])
    requires { length y.now ≡ length row.old }
    ensures { row.new
        ≡ build (length row.old) (λ j. word (pos x *ℤ get_or y.now j (pos 0))) }
{
    let n = row.len();
    for pair in 0..n / 2 {
        let j = 2 * pair;
        row[j] = matrices::add_signed_product(0, x, y[j]);
        row[j + 1] = matrices::add_signed_product(0, x, y[j + 1]);
    }
    if n % 2 == 1 {
        row[n - 1] = matrices::add_signed_product(0, x, y[n - 1]);
    }
}

// Adds x times the row y to `row`, two words a turn and by an index as well.
pub(crate) fn add_row(x: u64, y: &[i64], row: &mut [u64])
    requires { length y.now ≡ length row.old }
    ensures { Added modulo (λ j. pos x *ℤ get_or y.now j (pos 0)) 0 (length row.old)
        row.old row.new }
{
    let n = row.len();
    for pair in 0..n / 2 {
        let j = 2 * pair;
        row[j] = matrices::add_signed_product(row[j], x, y[j]);
        row[j + 1] = matrices::add_signed_product(row[j + 1], x, y[j + 1]);
    }
    if n % 2 == 1 {
        row[n - 1] = matrices::add_signed_product(row[n - 1], x, y[n - 1]);
    }
}

// sum + x0 y0 + x1 y1 + x2 y2 + x3 y3 modulo 2^64: the four words of x, and those in column j of the four rows of y.
fn add_column(sum: u64, x: [u64; 4], y: &[i64], cols: usize, j: usize) -> u64
    requires { (length y.now ≡ 4 * cols) × (j < cols) }
    ensures { result
        ≡ word (pos sum +ℤ row_times 4 x (signed cols y.now) j) }
{
    let one = matrices::add_signed_product(sum, x[0], y[j]);
    let two = matrices::add_signed_product(one, x[1], y[cols + j]);
    let three = matrices::add_signed_product(two, x[2], y[2 * cols + j]);
    matrices::add_signed_product(three, x[3], y[3 * cols + j])
}

// Adds the row x of four words times the four rows of y to `row`, which is read and written once for all four. It goes
// from the last word down, so that each word keeps one multiplication of its own.
pub(crate) fn add_four_rows(x: &[u64], y: &[i64], cols: usize, row: &mut [u64])
    requires { (length x.now ≡ 4) × (length y.now ≡ 4 * cols) × (length row.old ≡ cols) }
    ensures { Added modulo (row_times 4 x.now (signed cols y.now)) 0
        (length row.old) row.old row.new }
{
    let four = [x[0], x[1], x[2], x[3]];
    for j in (0..cols).rev() {
        row[j] = add_column(row[j], four, y, cols, j);
    }
}

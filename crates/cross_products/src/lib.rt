// The products of two witnesses' columns, exactly: V is S1 transposed times S2, and D is S transposed times S, which is
// written as a square or as its lower triangle.
// Rows are cut by ranges: `chunks_exact` asks for a width above 0, which `cross_products` does not ask of callers.
#![tactic(auto)]

ghost use Rattle.std.specs.Prelude.{◌≡◌, ℕ, ◌+◌, ◌*◌, ◌^◌, ◌≤◌, ◌<◌, pos, nat_abs, ◌+ℤ◌, ◌*ℤ◌, length, get_or};
ghost use Rattle.integers.specs.Lists.{build};
ghost use Rattle.matrices.specs.Matrices.{product, transposed, gram, sizes, Agree};
ghost use Rattle.matrices.specs.Tables.{table, signed};
ghost use Rattle.matrices.specs.Triangles.{triangular, lower, mirrored, mirrored_plus};
ghost use Rattle.cross_products.specs.Rows.{outer, Small, Room, RowRoom};

// Writes x times y into `row`, two numbers a turn: of a loop with one the compiler would make vectors, which have no
// 64-bit multiply. By an index: an odd last number would need a tail of its own after `chunks_exact(2)` all the same.
// Not one with those of `word_products`: an exact sum asks for room, which a trait would carry into each contract
// there; and the row that is added goes the other way there.
fn write_multiple(x: i64, y: &[i64], row: &mut [i64])
    requires y_len { length y.now ≡ length row.old }
    requires small { Small (length row.old) (λ j. x *ℤ get_or y.now j (pos 0)) }
    ensures { row.new
        ≡ build (length row.old) (λ j. x *ℤ get_or y.now j (pos 0)) }
{
    let n = row.len();
    for pair in 0..n / 2 {
        let j = 2 * pair;
        row[j] = matrices::add_product(0, x, y[j]);
        row[j + 1] = matrices::add_product(0, x, y[j + 1]);
    }
    if n % 2 == 1 {
        row[n - 1] = matrices::add_product(0, x, y[n - 1]);
    }
}

// Writes the product of each number of the row x with each of the row y into `out`, row by row.
// Not one function with `add_products` that is lent the step on a row: what the two steps ask and leave differs, so
// that the step's contract would say more than both loops.
fn write_products(x: &[i64], y: &[i64], rows: usize, cols: usize, out: &mut [i64])
    requires x_len { (length x.now ≡ rows) × (length y.now ≡ cols) × (length out.old ≡ rows * cols) }
    requires by_index { (i : ℕ) → i < rows → Small cols (outer x.now y.now i) }
    ensures { out.new
        ≡ table rows cols (outer x.now y.now) }
{
    for (i, number) in x.iter().enumerate() {
        let start = i * cols;
        let end = start + cols;
        write_multiple(*number, y, &mut out[start..end]);
    }
}

// Adds x times y to `row`, from the last number down, two a turn (a last one that has no other comes first): both are
// read along memory, and x stays in a register. Of a loop with one the compiler would make vectors, which have no
// 64-bit multiply. By an index, as in `write_multiple`.
fn add_multiple(x: i64, y: &[i64], row: &mut [i64])
    requires y_len { length y.now ≡ length row.old }
    requires row_room { RowRoom (length row.old) row.old (λ j. nat_abs (x *ℤ get_or y.now j (pos 0))) }
    ensures { (j : ℕ) → j < length row.old → get_or row.new j (pos 0)
        ≡ get_or row.old j (pos 0) +ℤ x *ℤ get_or y.now j (pos 0) }
{
    let n = row.len();
    if n % 2 == 1 {
        row[n - 1] = matrices::add_product(row[n - 1], x, y[n - 1]);
    }
    for pair in (0..n / 2).rev() {
        let j = 2 * pair;
        let high = matrices::add_product(row[j + 1], x, y[j + 1]);
        let low = matrices::add_product(row[j], x, y[j]);
        row[j + 1] = high;
        row[j] = low;
    }
}

// Adds the product of each number of the row x with each of the row y to `out`, which is read and written along its
// rows.
fn add_products(x: &[i64], y: &[i64], rows: usize, cols: usize, out: &mut [i64])
    requires x_len { (length x.now ≡ rows) × (length y.now ≡ cols) × (length out.old ≡ rows * cols) }
    requires room { Room rows cols (signed cols out.old) (λ i j. nat_abs (outer x.now y.now i j)) }
    ensures { Agree rows cols (signed cols out.new)
        (λ i j. signed cols out.old i j +ℤ outer x.now y.now i j) }
{
    for (i, number) in x.iter().enumerate() {
        let start = i * cols;
        let end = start + cols;
        add_multiple(*number, y, &mut out[start..end]);
    }
}

// a + x0 y0 + x1 y1 + x2 y2 + x3 y3, where y0 to y3 stand in column j of the four rows of y.
// Four factors by name: contract and body name each of them beside its own row of y, as they would an array's places.
fn four_more(a: i64, x0: i64, x1: i64, x2: i64, x3: i64, y: &[i64], cols: usize, j: usize) -> i64
    requires y_len { (length y.now ≡ 4 * cols) × (j < cols) }
    requires pos_bound { nat_abs a + nat_abs (x0 *ℤ get_or y.now j (pos 0))
        + nat_abs (x1 *ℤ get_or y.now (cols + j) (pos 0))
        + nat_abs (x2 *ℤ get_or y.now (2 * cols + j) (pos 0)) + nat_abs (x3 *ℤ get_or y.now (3 * cols + j) (pos 0))
        ≤ 2 ^ 62 }
    ensures { result
        ≡ a +ℤ x0 *ℤ get_or y.now j (pos 0) +ℤ x1 *ℤ get_or y.now (cols + j) (pos 0)
        +ℤ x2 *ℤ get_or y.now (2 * cols + j) (pos 0)
        +ℤ x3 *ℤ get_or y.now (3 * cols + j) (pos 0) }
{
    let one = matrices::add_product(a, x0, y[j]);
    let two = matrices::add_product(one, x1, y[cols + j]);
    let three = matrices::add_product(two, x2, y[2 * cols + j]);
    matrices::add_product(three, x3, y[3 * cols + j])
}

// Adds row i of x transposed times y to `row`, where x and y have four rows: `row` is read and written once for all
// four.
fn add_four_multiples(x: &[i64], y: &[i64], rows: usize, cols: usize, i: usize, row: &mut [i64])
    requires x_len { (length x.now ≡ 4 * rows) × (length y.now ≡ 4 * cols) × (i < rows)
        × (length row.old ≡ cols) }
    requires row_room { RowRoom cols row.old (sizes 4 (transposed (signed rows x.now)) (signed cols y.now) i) }
    ensures { (j : ℕ) → j < cols → get_or row.new j (pos 0)
        ≡ get_or row.old j (pos 0)
        +ℤ product 4 (transposed (signed rows x.now)) (signed cols y.now) i j }
{
    let x0 = x[i];
    let x1 = x[rows + i];
    let x2 = x[2 * rows + i];
    let x3 = x[3 * rows + i];
    for j in (0..cols).rev() {
        row[j] = four_more(row[j], x0, x1, x2, x3, y, cols, j);
    }
}

// Adds x transposed times y to `out`, where x and y have four rows: `out` is read and written along its rows.
fn add_four_products(x: &[i64], y: &[i64], rows: usize, cols: usize, out: &mut [i64])
    requires x_len { (length x.now ≡ 4 * rows) × (length y.now ≡ 4 * cols)
        × (length out.old ≡ rows * cols) }
    requires room { Room rows cols (signed cols out.old)
        (sizes 4 (transposed (signed rows x.now)) (signed cols y.now)) }
    ensures { Agree rows cols (signed cols out.new) (λ i j. signed cols out.old i j
        +ℤ product 4 (transposed (signed rows x.now)) (signed cols y.now) i j) }
{
    for i in 0..rows {
        let start = i * cols;
        let end = start + cols;
        add_four_multiples(x, y, rows, cols, i, &mut out[start..end]);
    }
}

// Adds to `out`, the product of the first rows of x and y, that of those which follow, four rows a pass while four are
// left, and answers how many rows it then is the product of. A loop that chose between four rows and one in every pass
// would be slower.
fn add_fours(
    x: &[i64],
    y: &[i64],
    m: usize,
    rows: usize,
    cols: usize,
    first: usize,
    out: &mut [i64],
) -> usize
    requires x_len { (length x.now ≡ m * rows) × (length y.now ≡ m * cols)
        × (length out.old ≡ rows * cols) × (first ≤ m) }
    requires by_index { (i j : ℕ) → i < rows → j < cols
        → sizes m (transposed (signed rows x.now)) (signed cols y.now) i j ≤ 2 ^ 62 }
    requires summed { Agree rows cols (signed cols out.old)
        (product first (transposed (signed rows x.now)) (signed cols y.now)) }
    ensures { (result ≤ m) × Agree rows cols (signed cols out.new)
        (product result (transposed (signed rows x.now)) (signed cols y.now)) }
{
    let fours = (m - first) / 4;
    for four in 0..fours {
        let k = first + 4 * four;
        let from = k * rows;
        let to = from + 4 * rows;
        let begin = k * cols;
        let end = begin + 4 * cols;
        add_four_products(&x[from..to], &y[begin..end], rows, cols, out);
    }
    first + 4 * fours
}

// x transposed times y, exactly, as V is S1 transposed times S2: both have m rows, x has `rows` columns and y has
// `cols`, and no partial sum leaves a signed word. It takes four rows of x and of y after the other, so that both are
// read in the order in which they are stored, and the last ones one by one. Where m is no multiple of four, the first
// row is taken alone and its products are written, so that nothing has to be cleared before.
pub fn cross_products(x: &[i64], y: &[i64], m: usize, rows: usize, cols: usize, out: &mut [i64])
    requires x_len { (length x.now ≡ m * rows) × (length y.now ≡ m * cols)
        × (length out.old ≡ rows * cols) }
    requires by_index { (i j : ℕ) → i < rows → j < cols
        → sizes m (transposed (signed rows x.now)) (signed cols y.now) i j ≤ 2 ^ 62 }
    ensures { out.new
        ≡ table rows cols (product m (transposed (signed rows x.now)) (signed cols y.now)) }
{
    let first = if m % 4 == 0 {
        small_rows::clear(out);
        0
    } else {
        write_products(&x[..rows], &y[..cols], rows, cols, out);
        1
    };
    let taken = add_fours(x, y, m, rows, cols, first, out);
    for k in taken..m {
        let from = k * rows;
        let to = from + rows;
        let start = k * cols;
        let end = start + cols;
        add_products(&x[from..to], &y[start..end], rows, cols, out);
    }
}

// Writes the product of each number of the row y with each of those up to it into the triangle `out`, row by row.
// Not one with `add_lower`: their steps on a row differ as those of `write_products` and `add_products` do.
fn write_lower(y: &[i64], n: usize, out: &mut [i64])
    requires y_len { (length y.now ≡ n) × (length out.old ≡ triangular n) }
    requires by_index { (i : ℕ) → i < n → Small n (outer y.now y.now i) }
    ensures { out.new ≡ lower n (outer y.now y.now) }
{
    let mut start: usize = 0;
    for (i, number) in y.iter().enumerate() {
        let end = start + i + 1;
        write_multiple(*number, &y[..i + 1], &mut out[start..end]);
        start = end;
    }
}

// Adds the product of each number of the row y with each of those up to it to the triangle `out`.
fn add_lower(y: &[i64], n: usize, out: &mut [i64])
    requires y_len { (length y.now ≡ n) × (length out.old ≡ triangular n) }
    requires room { Room n n (mirrored out.old) (λ i j. nat_abs (outer y.now y.now i j)) }
    ensures { out.new
        ≡ lower n (mirrored_plus out.old (outer y.now y.now)) }
{
    let mut start: usize = 0;
    for (i, number) in y.iter().enumerate() {
        let end = start + i + 1;
        add_multiple(*number, &y[..i + 1], &mut out[start..end]);
        start = end;
    }
}

// s transposed times s, exactly, as its lower triangle: s has m rows, at least one, and `cols` columns, and no partial
// sum leaves a signed word. The rows are taken one after the other, so that a number of `out` is not read again right
// after it was written, and the products of the first row are written, so that nothing has to be cleared before.
pub fn lower_products(s: &[i64], m: usize, cols: usize, out: &mut [i64])
    requires m_nonzero { (0 < m) × (length s.now ≡ m * cols) × (length out.old ≡ triangular cols) }
    requires by_index { (i j : ℕ) → i < cols → j < cols
        → sizes m (transposed (signed cols s.now)) (signed cols s.now) i j ≤ 2 ^ 62 }
    ensures { out.new ≡ lower cols (gram m (signed cols s.now)) }
{
    write_lower(&s[..cols], cols, out);
    for k in 1..m {
        let from = k * cols;
        let to = from + cols;
        add_lower(&s[from..to], cols, out);
    }
}

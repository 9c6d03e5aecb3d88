// A challenge as a matrix of small signed numbers, by columns, the rows that meet the same column added up: what the
// folds of T~, D~ and S~ multiply by, and a row of signed words times such a matrix.
#![tactic(auto)]

ghost use Rattle.std.specs.Prelude.{◌≡◌, ℕ, ◌+◌, ◌*◌, ◌^◌, ◌<◌, ◌≤◌, length};
ghost use Rattle.integers.specs.Lists.{build};
ghost use Rattle.matrices.specs.Elements.{exactly, Added};
ghost use Rattle.matrices.specs.Matrices.{contracted, Agree};
ghost use Rattle.matrices.specs.Tables.{ternary, challenge};
ghost use Rattle.small_rows.specs.Small.{Within};
ghost use Rattle.small_rows.specs.Columns.{by_columns};
ghost use Rattle.challenges.specs.Rows.{row_times};

// The number of a challenge's byte.
fn number(v: u8) -> i16
    ensures { result ≡ ternary v }
{
    match v {
        0 => 0,
        1 => 1,
        _ => -1,
    }
}

// Writes the first `rows` numbers of column j of the challenge c, which has t columns.
fn read_column(c: &[u8], rows: usize, t: usize, j: usize, column: &mut [i16])
    requires { (rows * t ≤ length c.now) × (j < t) × (length column.old ≡ rows) }
    ensures { column.new ≡ build rows (λ k. challenge t c.now k j) }
{
    for (k, x) in column.iter_mut().enumerate() {
        *x = number(c[k * t + j]);
    }
}

// Adds to each number of column j from row `from` on the one that stands `further` rows after it in the challenge c.
fn add_rows(c: &[u8], from: usize, further: usize, t: usize, j: usize, column: &mut [i16])
    requires { (from ≤ length column.old) × ((length column.old + further) * t ≤ length c.now) × (j < t)
        × Within 15 column.old }
    ensures { Added exactly (λ k. challenge t c.now (k + further) j)
        from (length column.old) column.old column.new }
{
    for k in from..column.len() {
        column[k] += number(c[(k + further) * t + j]);
    }
}

// A challenge of `columns` columns, by rows: its first `left` rows, and then `copies` blocks of `block` rows. What it
// folds has one column for the rows in the same place of each block, and those rows are added up.
#[derive(Clone, Copy)]
pub struct Challenge<'a> {
    pub bytes: &'a [u8],
    pub left: usize,
    pub block: usize,
    pub copies: usize,
    pub columns: usize,
    pub ghost whole: { length bytes.now ≡ (left + copies * block) * columns },
    pub ghost some: { 1 ≤ copies },
    pub ghost few: { copies ≤ 16 },
}

impl<'a> Challenge<'a> {
    ghost use Rattle.challenges.specs.Challenges.{folded, rows_of};

    // The challenge whose rows all stand first, so that none is added to another.
    pub fn plain(bytes: &'a [u8], rows: usize, columns: usize) -> Challenge<'a>
        requires { length bytes.now ≡ rows * columns }
        ensures rows { rows_of result ≡ rows }
        ensures columns { result.columns ≡ columns }
        ensures entries { (i j : ℕ) → folded result i j ≡ challenge columns bytes.now i j }
    {
        Challenge {
            bytes,
            left: rows,
            block: 0,
            copies: 1,
            columns,
        }
    }

    // Writes column j: `left` numbers, and then `block` sums of the numbers that stand in the same place of each copy.
    // One copy alone is written and nothing is added.
    fn decode_column(self, j: usize, column: &mut [i16])
        requires { (j < self.columns) × (length column.old ≡ rows_of self) }
        ensures { column.new ≡ build (rows_of self.entry) (λ k. folded self.entry k j) }
    {
        read_column(self.bytes, self.left + self.block, self.columns, j, column);
        for a in 1..self.copies {
            add_rows(
                self.bytes,
                self.left,
                a * self.block,
                self.columns,
                j,
                column,
            );
        }
    }

    // Puts the challenge into q by columns of 512 places: its first `left` rows, and then the sum of the blocks that
    // follow. What it leaves of q must be as small as the sums of 16 copies.
    // q is a slice and no type: it is an array that is filled in part, and `product_t` is lent it by C.
    pub fn decode(self, q: &mut [i16])
        requires { (rows_of self ≤ 512) × (self.columns * 512 ≤ length q.old) × Within 16 q.old }
        ensures { Agree (rows_of self.entry) self.entry.columns (by_columns q.new)
            (folded self.entry) × Within 16 q.new }
    {
        for j in 0..self.columns {
            let start = j * 512;
            let end = start + (self.left + self.block);
            self.decode_column(j, &mut q[start..end]);
        }
    }
}

// e, as a row, times column j of q.
fn fold_entry(e: &[i64], q: &[i16], j: usize) -> i64
    requires { (length e.now ≤ 512) × Within (2 ^ 45) e.now × Within 16 q.now
        × (j * 512 + 512 ≤ length q.now) }
    ensures { result ≡ row_times e.now (by_columns q.now) j }
{
    let mut a: i64 = 0;
    for (k, x) in e.iter().enumerate() {
        let v = q[j * 512 + k];
        a = matrices::add_product(a, *x, v as i64);
    }
    a
}

// e, as a row of up to 512 numbers, times the first t columns of q, whose numbers may be sums of 16 of a challenge's.
pub fn fold_row(e: &[i64], q: &[i16], t: usize, out: &mut [i64])
    requires { (length e.now ≤ 512) × Within (2 ^ 45) e.now × Within 16 q.now
        × (t * 512 ≤ length q.now) × (length out.old ≡ t) }
    ensures { out.new ≡ build t (row_times e.now (by_columns q.now)) }
{
    for (j, x) in out.iter_mut().enumerate() {
        *x = fold_entry(e, q, j);
    }
}

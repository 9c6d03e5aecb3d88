// One step of a sum of products, exactly and modulo 2^64, and the length of a column of a matrix stored by rows.
#![tactic(auto)]

ghost use Rattle.std.specs.Prelude.{◌≡◌, ◌+◌, ◌*◌, ◌^◌, ◌<◌, length, pos, ◌+ℤ◌, ◌*ℤ◌, nat_le, unsigned_abs};
ghost use Rattle.integers.specs.Residues.{word};
ghost use Rattle.matrices.specs.Lengths.{less_square};
ghost use Rattle.matrices.specs.Matrices.{squared_length};
ghost use Rattle.matrices.specs.Tables.{signed};

// sum + x y, where no partial sum leaves a signed word.
pub fn add_product(sum: i64, x: i64, y: i64) -> i64
    requires { unsigned_abs sum + unsigned_abs (x *ℤ y) < 2 ^ 63 }
    ensures { result ≡ sum +ℤ x *ℤ y }
{
    sum + x * y
}

// sum + x y modulo 2^64.
pub fn add_word_product(sum: u64, x: u64, y: u64) -> u64
    ensures { result ≡ word (pos sum +ℤ pos x *ℤ pos y) }
{
    sum.wrapping_add(integers::wrapping_mul(x, y))
}

// The same for a signed y, which is taken modulo 2^64.
pub fn add_signed_product(sum: u64, x: u64, y: i64) -> u64
    ensures { result ≡ word (pos sum +ℤ pos x *ℤ y) }
{
    add_word_product(sum, x, integers::residue(y))
}

// What the square of x leaves of `left`, if it is not above it. A size of 2^32 or more is above by itself, so nothing
// wraps. By a comparison in place of `checked_sub`, so that must-fail's version excludes the bound.
pub fn take_square(left: u64, x: i64) -> Option<u64>
    ensures { result ≡ less_square left x }
{
    let w = integers::size(x);
    if 4294967295 < w {
        return None;
    }
    let square = w * w;
    if left < square {
        return None;
    }
    Some(left - square)
}

// Whether column j of s has a squared length of at most `bound`, for all signed words: what is left of the bound
// only falls.
pub fn column_within(s: &[i64], rows: usize, cols: usize, j: usize, bound: u64) -> bool
    requires { (length s.now ≡ rows * cols) × (j < cols) }
    ensures { result ≡ nat_le (squared_length rows (signed cols s.now) j) bound }
{
    let mut left = bound;
    for k in 0..rows {
        let Some(rest) = take_square(left, s[k * cols + j]) else {
            return false;
        };
        left = rest;
    }
    true
}

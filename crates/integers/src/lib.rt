// Words of 64 bits: the wrapping product, signed words by size, residue and sign, and ranges.
#![tactic(auto)]

ghost use Rattle.std.specs.Prelude.{◌≡◌, ◌*◌, ◌%◌, ◌^◌, unsigned_abs};
ghost use Rattle.integers.specs.Residues.{word};
ghost use Rattle.integers.specs.Words.{signed_word};
ghost use Rattle.integers.specs.Ranges.{◌to◌, within};

// x * y modulo 2^64, by halves of 32 bits. The machine code is one multiply (mov, imul, ret).
// A product of our own, as the specification asks: C's `product_word` is this function alone, and the two wrong versions
// are of its halves.
pub fn wrapping_mul(x: u64, y: u64) -> u64
    ensures { result ≡ (x * y) % 2 ^ 64 }
{
    let xl = x % 4294967296;
    let xh = x / 4294967296;
    let yl = y % 4294967296;
    let yh = y / 4294967296;
    let cross = (xl * yh).wrapping_add(yl * xh);
    (cross << 32).wrapping_add(xl * yl)
}

// The distance of s from 0. That of -2^63 is no signed word.
// A name of ours: callers' proofs cite its one clause, and must-fail has a wrong version, by a signed word.
pub fn size(s: i64) -> u64
    ensures { result ≡ unsigned_abs s }
{
    s.unsigned_abs()
}

// s modulo 2^64. The machine code is a move (mov, ret).
// A name of ours for `cast_unsigned`: the contract says it by `word`, which callers' proofs cite, and must-fail has a
// wrong version of it.
#[tactic(auto, using(crate::proofs::Words::bits_word))]
pub fn residue(s: i64) -> u64
    ensures { result ≡ word s }
{
    s.cast_unsigned()
}

// The largest size of a signed word, and the size of the lowest one.
const LARGEST: u64 = 9223372036854775807;

const LOWEST: u64 = 9223372036854775808;

// The signed word of this size and sign, if there is one: sizes to 2^63 - 1, and below zero 2^63 too. By bounds of our
// own in place of the library's conversions, so that must-fail's versions take one of them for one less.
pub fn with_sign(size: u64, negative: bool) -> Option<i64>
    ensures { result ≡ signed_word size negative }
{
    if negative {
        return if size <= LOWEST {
            Some(0i64.wrapping_sub_unsigned(size))
        } else {
            None
        };
    }
    if size <= LARGEST {
        Some(size as i64)
    } else {
        None
    }
}

// Whether x is in the range from `low` to `high`, both among them.
// A name of ours: the contract says it by `within`, the word of the rules of settings, groups and loads.
pub fn inside(x: u64, low: u64, high: u64) -> bool
    ensures { result ≡ within (low to high) x }
{
    (low..=high).contains(&x)
}

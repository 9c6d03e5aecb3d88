// The numbers that the limits of a setting compare, and the comparisons, on plain words.
ghost use Rattle.std.specs.Prelude.{◌≡◌, cond, ◌+◌, ◌-◌, ◌*◌, ◌^◌, ◌≤◌, ◌<◌, leb, ltb};
ghost use Rattle.integers.specs.Lists.{build};

use crate::Setting;

// The greatest l with b^(2l) at most B. The comparison is by division, since b^(2(l + 1)) takes up to 93 bits.
pub(crate) fn level(b: u64, bound: u64) -> usize
    requires { (2 ≤ b) × (b ≤ 65535) × (1 ≤ bound) × (bound ≤ 2 ^ 62) }
    ensures { (b ^ (2 * result) ≤ bound) × (bound < b ^ (2 * (result + 1))) }
{
    let square = b * b;
    // By a product a level: `ilog` divides at each, and took up to nineteen times as long.
    let mut power: u64 = 1;
    let mut l: usize = 0;
    while power <= bound / square {
        power *= square;
        l += 1;
    }
    l
}

// The powers of b below b^k, and zeros.
pub(crate) fn powers_of(b: u64, k: usize) -> [u64; Setting::POWERS]
    requires { (1 ≤ b) × (k ≤ 33) × (b ^ k < 2 ^ 64) }
    ensures { result ≡ build 33 (λ p. cond (ltb p k) (b ^ p) 0) }
{
    let mut powers = [0u64; Setting::POWERS];
    let mut power: u64 = 1;
    for p in 0..k {
        powers[p] = power;
        power *= b;
    }
    powers
}

// 1 + b + .. + b^(k - 1), which times b - 1 is b^k - 1.
pub(crate) fn repunit_of(b: u64, k: usize) -> u64
    requires { (2 ≤ b) × (k ≤ 33) × (b ^ k < 2 ^ 64) }
    ensures { result * (b - 1) + 1 ≡ b ^ k }
{
    let mut r: u64 = 0;
    for _p in 0..k {
        r = r * b + 1;
    }
    r
}

// Growth: (N h)^2 m at most B. After refusals 1 to 4 the product stays below 2^60.
pub(crate) fn grows_within(columns: usize, h: u64, m: usize, bound: u64) -> bool
    requires { (columns ≤ 512) × (h ≤ 32767) × (m ≤ 4096) }
    ensures { result ≡ leb (columns * h * (columns * h) * m) bound }
{
    let x = (columns as u64) * h;
    x * x * (m as u64) <= bound
}

// Width: H r^2 at most the limit, for the repunit r. The product takes up to 134 bits, so it is compared by division:
// where r^2 alone passes the limit H r^2 does, since H is at least 1, and elsewhere r^2 divides the limit.
pub(crate) fn wide_within(m: usize, h: u64, r: u64, limit: u64) -> bool
    requires { (1 ≤ h) × (h ≤ 32767) × (1 ≤ m) × (m ≤ 4096) × (1 ≤ r) }
    ensures { result ≡ leb (h * h * m * (r * r)) limit }
{
    if limit / r < r {
        return false;
    }
    h * h * (m as u64) <= limit / (r * r)
}

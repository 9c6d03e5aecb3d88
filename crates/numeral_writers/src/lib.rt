// Decimal numerals, written to a lent buffer.
#![tactic(auto)]

ghost use Rattle.std.specs.Prelude.{◌≡◌, ◌+◌, ◌≤◌, length};
ghost use Rattle.numerals.specs.Bytes.{written};
ghost use Rattle.numerals.specs.Numerals.{decimal, decimal_Z};

// Writes n's numeral from `at` on, and answers the place past it.
// A lent buffer and the next place in it, and no String, since no heap is used.
pub fn put_u64(buf: &mut [u8], at: usize, n: u64) -> usize
    requires { at + length (decimal n) ≤ length buf.old }
    ensures { (result ≡ at + length (decimal n))
        × (buf.new ≡ written buf.old at (decimal n)) }
{
    if n < 10 {
        buf[at] = b'0' + (n % 10) as u8;
        return at + 1;
    }
    let to = put_u64(buf, at, n / 10);
    buf[to] = b'0' + (n % 10) as u8;
    to + 1
}

// Writes n's numeral from `at` on, and answers the place past it.
pub fn put_i64(buf: &mut [u8], at: usize, n: i64) -> usize
    requires { at + length (decimal_Z n) ≤ length buf.old }
    ensures { (result ≡ at + length (decimal_Z n))
        × (buf.new ≡ written buf.old at (decimal_Z n)) }
{
    let w = n.unsigned_abs();
    if n < 0 {
        buf[at] = b'-';
        return put_u64(buf, at + 1, w);
    }
    put_u64(buf, at, w)
}

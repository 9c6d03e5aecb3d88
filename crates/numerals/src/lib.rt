// Decimal numerals, read from bytes.
#![tactic(auto)]

ghost use Rattle.std.specs.Prelude.{◌≡◌, ◌+◌, ◌-◌, ◌^◌, ◌<◌, true, false, MatchOption, SomeIff};
ghost use Rattle.numerals.specs.Numerals.{is_digit, read_unsigned};

// The value of a digit.
#[tactic(auto, unfolding(crate::specs::Numerals::is_digit))]
fn digit_of(byte: u8) -> Option<u64>
    ensures { MatchOption result (is_digit byte ≡ false) (λ d. (is_digit byte ≡ true) × (d ≡ byte - 48)) }
{
    if byte.is_ascii_digit() {
        Some(u64::from(byte - b'0'))
    } else {
        None
    }
}

// The largest number of 64 bits.
const LARGEST: u64 = 18446744073709551615;

// A digit after a tenfold number. By a bound of our own in place of `checked_add`: must-fail's version takes it for one
// less, and so refuses the largest number.
fn with_digit(tens: u64, d: u64) -> Option<u64>
    requires { d < 2 ^ 8 }
    ensures { SomeIff result (tens + d < 2 ^ 64) (tens + d) }
{
    if LARGEST - d < tens {
        None
    } else {
        Some(tens + d)
    }
}

// The number that s is a numeral of.
pub fn parse_u64(s: &[u8]) -> Option<u64>
    ensures { result ≡ read_unsigned s.now }
{
    if s.is_empty() {
        return None;
    }
    if s[0] == b'0' && 1 < s.len() {
        return None;
    }
    let mut n: u64 = 0;
    for byte in s {
        n = with_digit(n.checked_mul(10)?, digit_of(*byte)?)?;
    }
    Some(n)
}

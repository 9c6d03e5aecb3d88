// Decimal numerals of signed words, read from bytes.
#![tactic(auto)]

ghost use Rattle.std.specs.Prelude.{◌≡◌, Some, pos};
ghost use Rattle.numerals.specs.Numerals.{read_signed, with_minus, fit_signed};

// The largest signed word, and how far the lowest one is below -1.
const LARGEST: u64 = 9223372036854775807;

const BELOW: u64 = 9223372036854775807;

// The signed reading of an unsigned numeral. By a bound of our own in place of `try_from`, here and after a minus, so
// that must-fail's versions take it for one less.
fn positive(n: u64) -> Option<i64>
    ensures { result ≡ fit_signed (Some (pos n)) }
{
    if n <= LARGEST { Some(n as i64) } else { None }
}

// The signed reading of an unsigned numeral after a minus. -1 - (n - 1) is -n and never overflows.
fn negative(n: u64) -> Option<i64>
    ensures { result ≡ fit_signed (with_minus (Some n)) }
{
    if n == 0 {
        return None;
    }
    let k = n - 1;
    if BELOW < k {
        return None;
    }
    Some(-1 - k as i64)
}

// The whole number that s is a numeral of.
pub fn parse_i64(s: &[u8]) -> Option<i64>
    ensures { result ≡ read_signed s.now }
{
    match s.strip_prefix(b"-") {
        Some(digits) => negative(numerals::parse_u64(digits)?),
        None => positive(numerals::parse_u64(s)?),
    }
}

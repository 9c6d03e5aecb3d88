// The entry that digits stand for, and whether they are the digits that the rule gives for it.
#![tactic(auto)]

ghost use Rattle.std.specs.Prelude.{◌≡◌, ◌^◌, ◌<◌, ◌≤◌};
ghost use Rattle.digit_entries.specs.Entries.{Digits, entry_of, limit, clamped, follow_rule};

// From here on a size is too long for every bound of a setting: its square is 2^64.
const LIMIT: i64 = 4294967296;

// The entry that the digits stand for, summed from the top digit down. Once a partial sum reaches LIMIT in size, so
// does the entry, which is then given up as LIMIT, or as -LIMIT below zero: no sum needs more than a word.
// Digits and their base are no type: a row of them is cut out of a matrix, of which `DigitRows` says it as a whole.
pub fn entry(digits: &[i64], b: u64) -> i64
    requires { (2 ≤ b) × (b < 2 ^ 16) × Digits b digits.now }
    ensures { result ≡ clamped limit (entry_of b digits.now) }
{
    let mut sum: i64 = 0;
    // By an index, so that must-fail's version ends at the second digit.
    for q in (0..digits.len()).rev() {
        sum = matrices::add_product(digits[q], sum, b as i64);
        if LIMIT <= sum {
            return LIMIT;
        }
        if sum <= 0 - LIMIT {
            return 0 - LIMIT;
        }
    }
    sum
}

// Whether the digits are those that the rule gives for x, the entry that they stand for, given up or not. To an odd
// base no others stand for it. To an even one a tie goes by the sign: an entry from 0 on has no digit -b/2, and one
// below 0 no digit b/2. It takes the same digits and base as `entry`.
pub fn follow_rule(digits: &[i64], b: u64, x: i64) -> bool
    requires { (2 ≤ b) × (b < 2 ^ 16) × Digits b digits.now × (x ≡ clamped limit (entry_of b digits.now)) }
    ensures { result ≡ follow_rule b digits.now }
{
    if b % 2 == 1 {
        return true;
    }
    let h = (b / 2) as i64;
    let never = if x < 0 { h } else { 0 - h };
    !digits.contains(&never)
}

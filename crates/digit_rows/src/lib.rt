// The matrix that a digit witness stands for, in passes over its rows. No entry is kept, so that each pass works them
// out anew.
#![tactic(auto)]

ghost use Rattle.std.specs.Prelude.{◌≡◌, ◌+◌, ◌*◌, ◌^◌, ◌<◌, ◌≤◌, length, get_or, ℕ, Some, None, MatchOption};
ghost use Rattle.integers.specs.Lists.{build};
ghost use Rattle.integers.specs.Tests.{all};
ghost use Rattle.matrices.specs.Tables.{table};
ghost use Rattle.settings.specs.Refusals.{number_in};
ghost use Rattle.settings.specs.Rules.{first_of};
ghost use Rattle.digit_entries.specs.Entries.{Digits, follow_rule};
ghost use Rattle.digit_rows.specs.Rows.{digits_at, read_at, taken, place, rows_rules};

use settings::Refusal;

// A digit witness as its rows are read: k digits to base b to an entry, `wide` entries to a row.
#[derive(Clone, Copy)]
pub struct DigitRows<'a> {
    pub digits: &'a [i64],
    pub m: usize,
    pub wide: usize,
    pub k: usize,
    pub b: u64,
    pub ghost sized: { (length digits.now ≡ m * (wide * k)) × (wide * k ≤ 512) },
    pub ghost based: { (2 ≤ b) × (b < 2 ^ 16) × Digits b digits.now },
}

// The most entries of a row that is tested.
const WIDEST: usize = 32;

// Takes the squares of a row's entries from what is left for their columns, and says whether its digits are those that
// the rule gives. None where a square is above what is left.
fn take_row(row: &[i64], k: usize, b: u64, left: &mut [u64]) -> Option<bool>
    requires row_len { length row.now ≡ length left.old * k }
    requires le_b { (2 ≤ b) × (b < 2 ^ 16) × Digits b row.now }
    ensures { MatchOption result
        ((j : ℕ) × (j < length left.old) × (taken b k row.now left.old j ≡ None))
        (λ ruled. ((j : ℕ) → j < length left.old → taken b k row.now left.old j ≡ Some (get_or left.new j 0))
        × (ruled ≡ all (length left.old) (λ j. follow_rule b (digits_at k row.now (j * k))))) }
{
    let mut within = true;
    let mut ruled = true;
    // By `both`, so that must-fail's version asks the last column alone.
    for (j, rest) in left.iter_mut().enumerate() {
        let start = j * k;
        let end = start + k;
        let digits = &row[start..end];
        let x = digit_entries::entry(digits, b);
        let next = matrices::take_square(*rest, x);
        let short = next.is_some();
        *rest = next.unwrap_or(0);
        within = scans::both(within, short);
        ruled = scans::both(ruled, digit_entries::follow_rule(digits, b, x));
    }
    if within { Some(ruled) } else { None }
}

impl<'a> DigitRows<'a> {
    // Refuses a column with a squared length above `bound`, and then digits that are other than the rule's.
    pub fn test(&self, bound: u64) -> Result<(), Refusal>
        requires { self.now.wide ≤ 32 }
        ensures { number_in result
            ≡ first_of (rows_rules self.now.b self.now.k self.now.wide self.now.digits.now self.now.m bound) }
    {
        let columns = self.wide * self.k;
        let mut left = [bound; WIDEST];
        let mut ruled = true;
        // By an index: `chunks_exact` asks for rows that are not empty, and here they may be.
        for i in 0..self.m {
            let start = i * columns;
            let end = start + columns;
            let row = &self.digits[start..end];
            let Some(follow) = take_row(row, self.k, self.b, &mut left[..self.wide]) else {
                return Err(Refusal::LongColumn);
            };
            ruled = scans::both(ruled, follow);
        }
        if ruled {
            Ok(())
        } else {
            Err(Refusal::OtherDigits)
        }
    }

    // Writes the entries whose digits follow each other from `start` on, as many as `row` holds.
    fn write_row(&self, start: usize, row: &mut [i64])
        requires { start + length row.old * self.now.k ≤ length self.now.digits.now }
        ensures { row.new
            ≡ build (length row.old) (λ j. read_at self.now.b self.now.k self.now.digits.now (start + j * self.now.k)) }
    {
        for (j, entry) in row.iter_mut().enumerate() {
            let first = start + j * self.k;
            let end = first + self.k;
            *entry = digit_entries::entry(&self.digits[first..end], self.b);
        }
    }

    // Writes `cols` columns, from column `from` on, row by row.
    pub fn write_columns(&self, from: usize, cols: usize, out: &mut [i64])
        requires { (length out.old ≡ self.now.m * cols) × (from + cols ≤ self.now.wide) }
        ensures { out.new
            ≡ table self.now.m cols (λ i j. read_at self.now.b self.now.k self.now.digits.now
            (place self.now.k self.now.wide i (from + j))) }
    {
        let columns = self.wide * self.k;
        // By an index: a proof knows nothing of what was written into the rows that `chunks_exact_mut` lends.
        for i in 0..self.m {
            let first = i * cols;
            let end = first + cols;
            self.write_row(i * columns + from * self.k, &mut out[first..end]);
        }
    }
}

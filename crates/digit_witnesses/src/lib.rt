// The digit witness S~ of [S1 S2], written row by row.
#![tactic(auto)]

ghost use Rattle.std.specs.Prelude.{◌≡◌, ◌++◌, ◌+◌, ◌*◌, ◌≤◌, length};
ghost use Rattle.matrices.specs.Tables.{table, signed};
ghost use Rattle.settings.specs.Settings.{k_of};
ghost use Rattle.settings.specs.Accepted.{parameters_in};
ghost use Rattle.digits.specs.Bases.{IsBase, AllInReach};
ghost use Rattle.digits.specs.Digits.{row_digits};
ghost use Rattle.lova.specs.Fold.{beside, digit_witness};

use digits::Base;
use settings::AcceptedSetting;

// Writes one row of a digit witness: the digits of s1's row, and then those of s2's.
fn write_both(left: &[i64], right: &[i64], base: Base, k: usize, row: &mut [i64])
    requires base { IsBase base × AllInReach base.b left.now × AllInReach base.b right.now }
    requires row_len { length row.old ≡ (length left.now + length right.now) * k }
    ensures { row.new ≡ row_digits base.b k (left.now ++ right.now) }
{
    let middle = left.len() * k;
    digits::write_row(left, base, k, &mut row[..middle]);
    digits::write_row(right, base, k, &mut row[middle..]);
}

// Writes the digit witness of [s1 s2], row by row: s1 has t columns, and s2 has `right`.
pub fn write_witness(
    accepted: &AcceptedSetting,
    right: usize,
    s1: &[i64],
    s2: &[i64],
    out: &mut [i64],
)
    requires right_le { right ≤ accepted.now.setting.t }
    requires s1_len { (length s1.now ≡ accepted.now.setting.m * accepted.now.setting.t)
        × (length s2.now ≡ accepted.now.setting.m * right)
        × (length out.old
        ≡ accepted.now.setting.m * ((accepted.now.setting.t + right) * k_of (parameters_in accepted.now))) }
    requires all_in_reach { AllInReach accepted.now.setting.b s1.now × AllInReach accepted.now.setting.b s2.now }
    ensures { out.new
        ≡ table accepted.now.setting.m ((accepted.now.setting.t + right) * k_of (parameters_in accepted.now))
        (digit_witness (parameters_in accepted.now)
        (beside accepted.now.setting.t (signed accepted.now.setting.t s1.now) (signed right s2.now))) }
{
    let setting = &accepted.setting;
    let m = setting.m;
    let left = setting.t;
    let wide = (left + right) * setting.k;
    let base = Base::new(setting.b);
    // By an index: a proof knows nothing of what was written into the rows that `chunks_exact_mut` lends.
    for i in 0..m {
        let left_start = i * left;
        let left_end = left_start + left;
        let right_start = i * right;
        let right_end = right_start + right;
        let start = i * wide;
        let end = start + wide;
        write_both(
            &s1[left_start..left_end],
            &s2[right_start..right_end],
            base,
            setting.k,
            &mut out[start..end],
        );
    }
}

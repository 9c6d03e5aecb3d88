// The points about single entries: digits, and witnesses of Setting 1.
ghost use Rattle.std.specs.Prelude.{◌^◌, ◌≤◌, ◌<◌, nat_abs};
ghost use Rattle.digits.specs.Bases.{InReach};

use super::example;
use digits::Base;
use settings::{Refusal, Setting};
use shown::lines;

// Shows K digits of x to the base b.
pub(crate) fn show_digits<const K: usize>(rt: &impl Print, x: i64, b: u64)
    requires few { K ≤ 5 }
    requires in_reach { (2 ≤ b) × (b < 2 ^ 16) × InReach b (nat_abs x) }
{
    let mut out = [0i64; K];
    digits::write_digits(x, Base::new(b), &mut out);
    lines::digits(rt, x, b, &out);
}

pub(crate) fn digit_points(rt: &impl Print) {
    show_digits::<5>(rt, 7, 2);
    show_digits::<5>(rt, -5, 2);
    show_digits::<3>(rt, 5, 3);
    show_digits::<3>(rt, 6, 4);
    show_digits::<3>(rt, 7, 4);
}

// The last T is 0: the product of A and S is 2^64.
pub(crate) fn witness_points(rt: &impl Print) -> Result<(), Refusal> {
    let one = Setting::listed(1)?;
    example::commit(rt, one, 3, 10);
    example::commit(rt, one, 3, 11);
    example::commit(rt, one, 3, -9223372036854775808);
    example::commit(rt, one, 9223372036854775808, 2);
    Ok(())
}

// Even multiples of a row added to a row: the factor is looked at once, outside the loop over the row, since most
// factors are 0, 1 and -1 and there is no vector of 64-bit products.
ghost use Rattle.std.specs.Prelude.{◌≡◌, ◌^◌, ◌≤◌, pos, nat_abs, ◌*ℤ◌, length, get_or};
ghost use Rattle.matrices.specs.Elements.{exactly, Added};
ghost use Rattle.small_rows.specs.Small.{Within};

// Adds `row` to e twice: apart from the other multiples, so that must-fail's version is wrong for the factor 1 alone.
fn plus_row(row: &[i64], e: &mut [i64])
    requires { (length row.now ≡ length e.old) × Within (2 ^ 31) row.now × Within (2 ^ 45) e.old }
    ensures { Added exactly (λ k. pos 2 *ℤ get_or row.now k (pos 0)) 0 (length e.old) e.old e.new }
{
    for (k, x) in e.iter_mut().enumerate() {
        *x += 2 * row[k];
    }
}

// Adds 2 v times `row` to e.
fn times_row(row: &[i64], v: i64, e: &mut [i64])
    requires { (length row.now ≡ length e.old) × Within (2 ^ 31) row.now × Within (2 ^ 45) e.old
        × (nat_abs v ≤ 16) }
    ensures { Added exactly (λ k. v *ℤ (pos 2 *ℤ get_or row.now k (pos 0))) 0
        (length e.old) e.old e.new }
{
    for (k, x) in e.iter_mut().enumerate() {
        *x = matrices::add_product(*x, v, 2 * row[k]);
    }
}

// Adds 2 v times `row` to e, by additions and subtractions where v is of a challenge.
pub(crate) fn add_row(row: &[i64], v: i16, e: &mut [i64])
    requires { (length row.now ≡ length e.old) × Within (2 ^ 31) row.now × Within (2 ^ 45) e.old
        × (nat_abs v ≤ 16) }
    ensures { Added exactly (λ k. v *ℤ (pos 2 *ℤ get_or row.now k (pos 0))) 0
        (length e.old) e.old e.new }
{
    match v {
        0 => {}
        1 => plus_row(row, e),
        -1 => times_row(row, -1, e),
        _ => times_row(row, v as i64, e),
    }
}

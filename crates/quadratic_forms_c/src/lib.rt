// The count of zeros of a quadratic form for C: one function, which writes the count and returns a code.
// `include/lova.h` declares it.
#![tactic(auto)]

ghost use Rattle.std.specs.Prelude.{◌≡◌};
ghost use Rattle.codes.specs.Codes.{returned};
ghost use Rattle.quadratic_forms_c.specs.Given.{count_given};

use settings::Refusal;

// Counts the ternary vectors c for which c-transposed E c is 0, and writes the count. Refusals 24, 7 and 25.
#[unsafe(no_mangle)]
pub extern "C" fn lova_count_zeros(n: u64, e: &[i64], count: &mut [u64]) -> u8
    ensures { returned result count.new ≡ count_given n e.now count.old }
{
    if !integers::inside(n, 1, quadratic_forms::MAX_ROWS as u64) {
        return Refusal::Rows.number();
    }
    if count.len() != 1 {
        return Refusal::Lengths.number();
    }
    match quadratic_forms::count_zeros(n as usize, e) {
        Ok(zeros) => {
            count[0] = zeros;
            0
        }
        Err(refusal) => refusal.number(),
    }
}

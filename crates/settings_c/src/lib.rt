// The setting check and the house list for C: each function writes numbers of a setting and returns a code.
// `include/lova.h` declares them, beside those of `prover_c` and `verifier_c`.
#![tactic(auto)]

ghost use Rattle.std.specs.Prelude.{◌≡◌};
ghost use Rattle.settings.specs.HouseList.{parameters};
ghost use Rattle.lova.specs.Answers.{ends, answer_of};
ghost use Rattle.codes.specs.Codes.{returned, coded};
ghost use Rattle.settings_c.specs.Given.{setting_given, listed_given};

mod numbers;

use settings::{Refusal, Setting};

// How many numbers a row of the house list has.
const ROW: usize = 5;

// The setting of five numbers: writes k, N and the 33 powers of b. Refusals 1 to 7.
#[unsafe(no_mangle)]
pub extern "C" fn lova_setting(n: u64, m: u64, t: u64, b: u64, bound: u64, out: &mut [u64]) -> u8
    ensures { returned result out.new
        ≡ coded (setting_given (parameters n m t b bound) out.old) }
{
    codes::code_of_answer(give_setting(n, m, t, b, bound, out))
}

// A row of the house list: writes n, m, t, b and B. Refusals 12 and 7.
#[unsafe(no_mangle)]
pub extern "C" fn lova_listed(number: u64, out: &mut [u64]) -> u8
    ensures { returned result out.new
        ≡ coded (listed_given number out.old) }
{
    codes::code_of_answer(give_listed(number, out))
}

// Writes what the setting of five numbers fixes.
fn give_setting(n: u64, m: u64, t: u64, b: u64, bound: u64, out: &mut [u64]) -> Result<(), Refusal>
    ensures { ends (answer_of result) out.new ≡ setting_given (parameters n m t b bound) out.old }
{
    let setting = Setting::new(n as usize, m as usize, t as usize, b, bound)?;
    if out.len() != 2 + Setting::POWERS {
        return Err(Refusal::Lengths);
    }
    numbers::write_worked_out(&setting, out);
    Ok(())
}

// Writes the five numbers of a row of the house list.
fn give_listed(number: u64, out: &mut [u64]) -> Result<(), Refusal>
    ensures { ends (answer_of result) out.new ≡ listed_given number out.old }
{
    let setting = Setting::listed(number as usize)?;
    if out.len() != ROW {
        return Err(Refusal::Lengths);
    }
    numbers::write_five(&setting, out);
    Ok(())
}

// The record `param`, with which the input of a program begins.
#![tactic(auto)]

ghost use Rattle.std.specs.Prelude.{◌≡◌};
ghost use Rattle.text.specs.Fields.{record_of, read_u64};
ghost use Rattle.chain.specs.Params.{param_word, opened_of, opened_as};

use chain::SmallSetting;
use settings::{AcceptedSetting, Refusal};

// The setting of a `param` line, or the first refusal that applies: 13, then 1 to 6, then 14.
pub fn read_setting(line: &[u8]) -> Result<SmallSetting, Refusal>
    ensures { opened_as result ≡ opened_of (record_of read_u64 param_word 5 line.now) }
{
    let mut five = [0u64; 5];
    if !field_readers::read_u64s(line, b"param", &mut five) {
        return Err(Refusal::BadLine);
    }
    let [n, m, t, b, bound] = five;
    let accepted = AcceptedSetting::new(n as usize, m as usize, t as usize, b, bound)?;
    chain::small_setting(accepted).ok_or(Refusal::LargeSetting)
}

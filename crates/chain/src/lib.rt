// The chain program's limits.
#![tactic(auto)]

ghost use Rattle.std.specs.Prelude.{◌≡◌, is_some, IfSome};
ghost use Rattle.settings.specs.Accepted.{parameters_in};
ghost use Rattle.chain.specs.Limits.{small, program_limits};

mod small_settings;

use settings::{AcceptedSetting, Setting};
pub use small_settings::SmallSetting;

// The most of n, m, t and k that the program takes.
pub const MAX_N: usize = 8;

pub const MAX_M: usize = 16;

pub const MAX_T: usize = 2;

pub const MAX_K: usize = 8;

// Whether the program takes a setting.
pub fn is_small(accepted: &AcceptedSetting) -> bool
    ensures { result ≡ small program_limits (parameters_in accepted.now) }
{
    let Setting { n, m, t, k, .. } = accepted.setting;
    n <= MAX_N && m <= MAX_M && t <= MAX_T && k <= MAX_K
}

// A setting as one that the program takes, where it does.
pub fn small_setting(accepted: AcceptedSetting) -> Option<SmallSetting>
    ensures taken { is_some result ≡ small program_limits (parameters_in accepted) }
    ensures same { IfSome result (λ s. s.accepted ≡ accepted) }
{
    if !is_small(&accepted) {
        return None;
    }
    Some(SmallSetting { accepted })
}

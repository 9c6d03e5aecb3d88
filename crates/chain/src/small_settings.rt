// A setting that the programs take.
ghost use Rattle.std.specs.Prelude.{◌≡◌, true};
ghost use Rattle.settings.specs.Accepted.{parameters_in};
ghost use Rattle.chain.specs.Limits.{small, program_limits};

use settings::AcceptedSetting;

// An accepted setting that is small enough for the programs, so that all matrices of it stand in arrays of fixed size.
#[derive(Clone, Copy)]
pub struct SmallSetting {
    pub accepted: AcceptedSetting,
    pub ghost small: { small program_limits (parameters_in accepted) ≡ true },
}

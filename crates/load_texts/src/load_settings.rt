// What the matrices of a load are drawn for.
ghost use Rattle.std.specs.Prelude.{◌≡◌};
ghost use Rattle.settings.specs.Accepted.{parameters_in};
ghost use Rattle.loads.specs.Files.{radius_of};

use chain::SmallSetting;

// A setting that the programs take, with its radius: how large the entries of a witness are at most.
#[derive(Clone, Copy)]
pub struct LoadSetting {
    pub small: SmallSetting,
    pub radius: u64,
    pub ghost radius_is: { radius ≡ radius_of (parameters_in small.accepted) },
}

// A setting that was accepted.
ghost use Rattle.std.specs.Prelude.{◌≡◌};
ghost use Rattle.settings.specs.Settings.{parameters_of, setting_of, setting_refusal};

use crate::Setting;

// A setting as the checking constructor gives it: what the parts of an operation go by.
#[derive(Clone, Copy)]
pub struct AcceptedSetting {
    pub setting: Setting,
    pub ghost ok: { setting_refusal (parameters_of setting) ≡ 0 },
    pub ghost whole: { setting ≡ setting_of (parameters_of setting) },
}

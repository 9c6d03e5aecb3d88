// The numbers of a setting written out.
ghost use Rattle.std.specs.Prelude.{◌≡◌, length};
ghost use Rattle.settings_c.specs.Given.{worked_out, five_of};

use settings::Setting;

// Writes k, N and the powers of b.
pub(crate) fn write_worked_out(setting: &Setting, out: &mut [u64])
    requires out_len { length out.old ≡ 35 }
    requires powers_len { length setting.now.powers ≡ 33 }
    ensures { out.new ≡ worked_out setting.now }
{
    out[0] = setting.k as u64;
    out[1] = setting.columns as u64;
    out[2..].copy_from_slice(&setting.powers);
}

// Writes n, m, t, b and B.
pub(crate) fn write_five(setting: &Setting, out: &mut [u64])
    requires { length out.old ≡ 5 }
    ensures { out.new ≡ five_of setting.now }
{
    out.copy_from_slice(&[
        setting.n as u64,
        setting.m as u64,
        setting.t as u64,
        setting.b,
        setting.bound,
    ]);
}

// The calls of a fold: message, folded witness and verdict. Settings are those that the chain program takes, so that
// the message stands in local arrays.
ghost use Rattle.std.specs.Prelude.{◌≡◌, true, IfOk};
ghost use Rattle.settings.specs.Accepted.{parameters_in};
ghost use Rattle.lova.specs.Answers.{ends, verdict_of, verdict_leaves};
ghost use Rattle.chain.specs.Limits.{small, program_limits};
ghost use Rattle.chain.specs.Nodes.{node_of, calls_of};

use lova::{Instance, Message, Profile, Verdict};
use settings::{AcceptedSetting, Refusal};

// Calls one after the other, up to the first that refuses. The message stays here.
// The folded node comes as slices of its own, since it is written: an `Instance` is for what is only read.
pub(crate) fn calls(
    accepted: &AcceptedSetting,
    a: &[u64],
    first: Instance,
    s1: &[i64],
    second: Instance,
    s2: &[i64],
    c: &[u8],
    t: &mut [u64],
    d: &mut [i64],
    s: &mut [i64],
) -> Result<Verdict, Refusal>
    requires { small program_limits (parameters_in accepted.now) ≡ true }
    ensures answer { verdict_of result
        ≡ (calls_of (parameters_in accepted.now) a.now
        (node_of first.entry.t.now first.entry.d.now first.entry.leaves s1.now)
        (node_of second.entry.t.now second.entry.d.now second.entry.leaves s2.now) c.now
        (node_of t.old d.old 0 s.old)).answer }
    ensures node { IfOk result (λ _. ends (verdict_of result) (node_of t.new d.new (verdict_leaves result) s.new)
        ≡ calls_of (parameters_in accepted.now) a.now
        (node_of first.entry.t.now first.entry.d.now first.entry.leaves s1.now)
        (node_of second.entry.t.now second.entry.d.now second.entry.leaves s2.now) c.now
        (node_of t.old d.old 0 s.old)) }
{
    let setting = accepted.setting;
    let mut v = [0i64; 4];
    let mut tt = [0u64; 256];
    let mut dd = [0i64; 528];
    let mut ss = [0i64; 512];
    let v = &mut v[..setting.t * setting.t];
    let tt = &mut tt[..setting.n * setting.columns];
    let dd = &mut dd[..setting.columns * (setting.columns + 1) / 2];
    let ss = &mut ss[..setting.m * setting.columns];
    messages::message(setting, Profile::General, a, s1, s2, v, tt, dd, ss)?;
    witnesses::fold_witness(setting, Profile::General, ss, c, s)?;
    let message = Message { v, tt, dd };
    // By a name, so that must-fail's version answers a yes whatever was judged.
    let judged = verdicts::verify(setting, Profile::General, first, second, message, c, t, d);
    judged
}

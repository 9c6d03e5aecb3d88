// A fold of two nodes of a chain. Settings are those that the chain program takes, so that all matrices stand in local
// arrays.
#![tactic(auto)]

ghost use Rattle.std.specs.Prelude.{◌≡◌, true};
ghost use Rattle.settings.specs.Accepted.{parameters_in};
ghost use Rattle.lova.specs.Answers.{ends, verdict_of, verdict_leaves, count_after};
ghost use Rattle.chain.specs.Limits.{small, program_limits};
ghost use Rattle.chain.specs.Nodes.{node_of, FitsNode, fold_of};

mod fold_calls;

use lova::{Instance, Verdict};
use settings::{AcceptedSetting, Refusal};

// Makes the node t1, d1, s1 its fold with the node of `second` and s2, and the challenge c; a refusal leaves it as it
// was. Its leaf count is handed back in the answer.
// The first node comes as slices of its own, since it is written in place: an `Instance` is for what is only read.
pub fn fold(
    accepted: &AcceptedSetting,
    a: &[u64],
    t1: &mut [u64],
    d1: &mut [i64],
    leaves1: u32,
    s1: &mut [i64],
    second: Instance,
    s2: &[i64],
    c: &[u8],
) -> Result<Verdict, Refusal>
    requires setting_value { small program_limits (parameters_in accepted.now) ≡ true }
    requires fits_node { FitsNode (parameters_in accepted.now) (node_of t1.old d1.old leaves1 s1.old) }
    ensures { ends (verdict_of result) (node_of t1.new d1.new
        (count_after (verdict_of result) (verdict_leaves result) leaves1) s1.new)
        ≡ fold_of (parameters_in accepted.now) a.now (node_of t1.old d1.old leaves1 s1.old)
        (node_of second.entry.t.now second.entry.d.now second.entry.leaves s2.now) c.now }
{
    let setting = &accepted.setting;
    let mut t = [0u64; 16];
    let mut d = [0i64; 4];
    let mut s = [0i64; 32];
    let t = &mut t[..setting.n * setting.t];
    let d = &mut d[..setting.t * setting.t];
    let s = &mut s[..setting.m * setting.t];
    let first = Instance {
        t: t1,
        d: d1,
        leaves: leaves1,
    };
    let verdict = fold_calls::calls(accepted, a, first, s1, second, s2, c, t, d, s)?;
    copies::copy(t, t1);
    copies::copy(d, d1);
    copies::copy(s, s1);
    Ok(verdict)
}

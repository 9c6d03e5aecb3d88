// The end of the input where a leaf is due: the relation test of the accumulated node, and the last line, written to
// the start of a buffer.
ghost use Rattle.std.specs.Prelude.{◌≡◌, ◌≤◌, length, take};
ghost use Rattle.lova.specs.Answers.{membership_of};
ghost use Rattle.lova.specs.Relation.{relation};
ghost use Rattle.chain.specs.Small.{numbers_in};
ghost use Rattle.chain.specs.Reports.{word_of, end_line};
ghost use Rattle.states.specs.Held.{part_A, node_in};

use chain::SmallSetting;
use lova::Membership;
use settings::Refusal;
use states::Slot;

// The relation test of the node in a slot.
pub(crate) fn test(small: SmallSetting, a: &[u64; 128], slot: &Slot) -> Result<Membership, Refusal>
    ensures { let p = numbers_in small in let z = node_in p slot.now 0 in
        membership_of result ≡ (relation p (part_A p a.now) z.instance.instance z.witness).answer }
{
    let setting = small.accepted.setting;
    let size_a = setting.n * setting.m;
    let size_t = setting.n * setting.t;
    let size_d = setting.t * setting.t;
    let size_s = setting.m * setting.t;
    relations::test_relation(
        setting,
        &a[..size_a],
        &slot.t[..size_t],
        &slot.d[..size_d],
        &slot.s[..size_s],
    )
}

// The word of a relation test.
#[tactic(auto, using(crate::proofs::Words::words))]
fn membership_word(membership: Result<Membership, Refusal>) -> &'static [u8]
    ensures word { result.now ≡ word_of (membership_of membership) }
    ensures short { length result.now ≤ 15 }
{
    match membership {
        Ok(Membership::Member) => b"member",
        Ok(Membership::Long) => b"long",
        Ok(Membership::Products) => b"products",
        Ok(Membership::Commitment) => b"commitment",
        Err(_) => b"refused",
    }
}

// Writes the last line, with the count of folds and the relation test, and answers its length.
pub(crate) fn put_end(out: &mut [u8], folds: u64, membership: Result<Membership, Refusal>) -> usize
    requires { 64 ≤ length out.old }
    ensures { (result ≤ length out.new)
        × (take result out.new ≡ end_line folds (membership_of membership)) }
{
    let word = field_writers::put_bytes(out, 0, b"end");
    let after_number = field_writers::put_number(out, word, folds);
    let at = field_writers::put_word(out, after_number, membership_word(membership));
    out[at] = 10;
    at + 1
}

// What the C functions share: the setting of five numbers, and the code of each answer.
#![tactic(auto)]

ghost use Rattle.std.specs.Prelude.{◌≡◌};
ghost use Rattle.settings.specs.Settings.{parameters_of};
ghost use Rattle.settings.specs.HouseList.{parameters};
ghost use Rattle.lova.specs.Answers.{answer_of, made_leaves, verdict_of, verdict_leaves, membership_of, count_after};
ghost use Rattle.codes.specs.Codes.{code_of};

use lova::{Membership, Verdict};
use settings::{Refusal, Setting};

// A setting of five numbers, not checked: the operations look at no more.
pub fn setting_of(n: u64, m: u64, t: u64, b: u64, bound: u64) -> Setting
    ensures { parameters_of result ≡ parameters n m t b bound }
{
    Setting {
        n: n as usize,
        m: m as usize,
        t: t as usize,
        b,
        bound,
        k: 0,
        columns: 0,
        powers: [0; Setting::POWERS],
    }
}

// The code of an answer that says no more than that the call was done or refused: of commit's and join's, whose leaf
// count has a place of its own, and of the answers with nothing beside them.
#[tactic(auto, unfolding(lova::specs::Answers::answer_of, crate::specs::Codes::code_of))]
pub fn code_of_answer<T: Copy>(answer: Result<T, Refusal>) -> u8
    ensures { result ≡ code_of (answer_of answer) }
{
    answer.map_or_else(Refusal::number, |_| 0)
}

// The leaf count in a place that held `before`, after commit's or join's answer: a refusal leaves it.
#[tactic(auto, unfolding(lova::specs::Answers::answer_of, lova::specs::Answers::refusal, lova::specs::Answers::refuses))]
pub fn count_of_made(made: Result<u32, Refusal>, before: u32) -> u32
    ensures { result ≡ count_after (answer_of made) (made_leaves made) before }
{
    made.unwrap_or(before)
}

// The same after a verdict: 0 without a yes.
#[tactic(auto, unfolding(lova::specs::Answers::verdict_of, lova::specs::Answers::refusal, lova::specs::Answers::refuses))]
pub fn count_of_verdict(verdict: Result<Verdict, Refusal>, before: u32) -> u32
    ensures { result ≡ count_after (verdict_of verdict) (verdict_leaves verdict) before }
{
    match verdict {
        Ok(Verdict::Yes(leaves)) => leaves,
        Ok(Verdict::Long | Verdict::Norm | Verdict::Commitment) => 0,
        Err(_) => before,
    }
}

// The code of a verdict.
#[tactic(auto, unfolding(lova::specs::Answers::verdict_of, crate::specs::Codes::code_of))]
pub fn code_of_verdict(verdict: Result<Verdict, Refusal>) -> u8
    ensures { result ≡ code_of (verdict_of verdict) }
{
    match verdict {
        Ok(Verdict::Yes(_)) => 0,
        Ok(Verdict::Norm) => 100,
        Ok(Verdict::Commitment) => 101,
        Ok(Verdict::Long) => 102,
        Err(refusal) => refusal.number(),
    }
}

// The code of the relation test's answer.
#[tactic(auto, unfolding(lova::specs::Answers::membership_of, crate::specs::Codes::code_of))]
pub fn code_of_membership(membership: Result<Membership, Refusal>) -> u8
    ensures { result ≡ code_of (membership_of membership) }
{
    match membership {
        Ok(Membership::Member) => 0,
        Ok(Membership::Commitment) => 101,
        Ok(Membership::Long) => 102,
        Ok(Membership::Products) => 103,
        Err(refusal) => refusal.number(),
    }
}

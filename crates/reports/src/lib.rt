// The lines that the chain program prints for a leaf and a fold, each written to the start of a buffer.
// Within a line the buffer and the place, as in `numeral_writers`: its parts are put one after the other into one lent
// buffer, with no heap, and a struct of both would only be taken apart by the writers of numerals.
#![tactic(auto)]

ghost use Rattle.std.specs.Prelude.{◌≡◌, [], ◌∷◌, ◌+◌, ◌*◌, ◌≤◌, length, take};
ghost use Rattle.numerals.specs.Bytes.{written};
ghost use Rattle.text.specs.Lines.{tabbed};
ghost use Rattle.lova.specs.Answers.{verdict_of};
ghost use Rattle.chain.specs.Reports.{instance_text, word_of, leaf_text, fold_text};

use lova::Verdict;
use settings::Refusal;

// The numbers of t and d and the leaf count, a tab before each, from `at` on, and a line feed; answers the place past
// it.
fn put_instance(out: &mut [u8], at: usize, t: &[u64], d: &[i64], leaves: u64) -> usize
    requires { at + 21 * length t.now + 21 * length d.now + 22 ≤ length out.old }
    ensures { (result ≡ at + length (instance_text t.now d.now leaves))
        × (out.new ≡ written out.old at (instance_text t.now d.now leaves))
        × (result ≤ at + 21 * length t.now + 21 * length d.now + 22) }
{
    let after_t = field_writers::put_u64s(out, at, t);
    let after_d = field_writers::put_i64s(out, after_t, d);
    let after_leaves = field_writers::put_number(out, after_d, leaves);
    out[after_leaves] = 10;
    after_leaves + 1
}

// The word of a verdict.
#[tactic(auto, using(crate::proofs::Words::words))]
fn verdict_word(verdict: Result<Verdict, Refusal>) -> &'static [u8]
    ensures word { result.now ≡ word_of (verdict_of verdict) }
    ensures short { length result.now ≤ 15 }
{
    match verdict {
        Ok(Verdict::Yes(_)) => b"yes",
        Ok(Verdict::Long) => b"long",
        Ok(Verdict::Norm) => b"norm",
        Ok(Verdict::Commitment) => b"commitment",
        Err(_) => b"refused",
    }
}

// Writes the line of leaf `number` with its instance and leaf count, and answers the line's length.
pub fn put_leaf(out: &mut [u8], number: u64, t: &[u64], d: &[i64], leaves: u64) -> usize
    requires { 64 + 21 * length t.now + 21 * length d.now ≤ length out.old }
    ensures { (result ≤ length out.new)
        × (take result out.new ≡ leaf_text number t.now d.now leaves) }
{
    let word = field_writers::put_bytes(out, 0, b"leaf");
    let after = field_writers::put_number(out, word, number);
    put_instance(out, after, t, d, leaves)
}

// Writes the line of fold `number` with its verdict, folded instance and leaf count, and answers the line's length.
pub fn put_fold(
    out: &mut [u8],
    number: u64,
    verdict: Result<Verdict, Refusal>,
    t: &[u64],
    d: &[i64],
    leaves: u64,
) -> usize
    requires { 64 + 21 * length t.now + 21 * length d.now ≤ length out.old }
    ensures { (result ≤ length out.new)
        × (take result out.new
        ≡ fold_text number (verdict_of verdict) t.now d.now leaves) }
{
    let word = field_writers::put_bytes(out, 0, b"fold");
    let after_number = field_writers::put_number(out, word, number);
    let after_verdict = field_writers::put_word(out, after_number, verdict_word(verdict));
    put_instance(out, after_verdict, t, d, leaves)
}

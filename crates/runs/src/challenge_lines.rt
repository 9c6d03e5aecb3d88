// The record `c`. A line that is refused changes no matrix.
ghost use Rattle.std.specs.Prelude.{◌≡◌, ◌^◌, ◌<◌, ◌≤◌, take};
ghost use Rattle.lova.specs.Answers.{verdict_of, verdict_leaves};
ghost use Rattle.chain.specs.Reports.{fold_line};
ghost use Rattle.chain.specs.Small.{numbers_in};
ghost use Rattle.states.specs.Held.{part_A, node_in, step_of, line_due, Safe};
ghost use Rattle.states.specs.declared.Due.TheVariants as Dues;
ghost use Rattle.runs.specs.Folds.{FoldMade};

use chain::SmallSetting;
use lova::{Instance, Verdict};
use settings::Refusal;
use states::{Due, Run, Slot, Store};

// A fold: its node, the leaves under it, and the verdict.
#[derive(Clone, Copy)]
struct Folded {
    slot: Slot,
    count: u32,
    verdict: Verdict,
}

// The leaf count that a verdict hands back: 0 without a yes.
fn leaves_of(verdict: Verdict) -> u32
    ensures { result ≡ verdict_leaves (Ok verdict) }
{
    match verdict {
        Verdict::Yes(leaves) => leaves,
        Verdict::Long | Verdict::Norm | Verdict::Commitment => 0,
    }
}

// The fold of the accumulated node, under which are so many leaves, with a new leaf and the challenge c, or what
// refuses it.
fn fold(
    small: SmallSetting,
    a: &[u64; 128],
    first: Slot,
    under: u32,
    second: &Slot,
    c: &[u8],
) -> Result<Folded, Refusal>
    ensures { let p = numbers_in small in
        FoldMade p (part_A p a.now) (node_in p first under) (node_in p second.now 1) c.now result }
{
    let setting = small.accepted.setting;
    let size_a = setting.n * setting.m;
    let size_t = setting.n * setting.t;
    let size_d = setting.t * setting.t;
    let size_s = setting.m * setting.t;
    let (mut t, mut d, mut s) = (first.t, first.d, first.s);
    let leaf = Instance {
        t: &second.t[..size_t],
        d: &second.d[..size_d],
        leaves: 1,
    };
    let verdict = fold_nodes::fold(
        &small.accepted,
        &a[..size_a],
        &mut t[..size_t],
        &mut d[..size_d],
        under,
        &mut s[..size_s],
        leaf,
        &second.s[..size_s],
        c,
    )?;
    Ok(Folded {
        slot: Slot { t, d, s },
        count: leaves_of(verdict),
        verdict,
    })
}

// Writes the line of the fold in a slot, and answers its length.
fn put(
    number: u64,
    small: SmallSetting,
    verdict: Verdict,
    slot: &Slot,
    leaves: u32,
    out: &mut [u8; 512],
) -> usize
    ensures { let p = numbers_in small in let z = node_in p slot.now leaves in (result ≤ 512)
        × (take result out.new ≡ fold_line p number (verdict_of (Ok verdict)) z.instance) }
{
    let setting = small.accepted.setting;
    let size_t = setting.n * setting.t;
    let size_d = setting.t * setting.t;
    reports::put_fold(
        out,
        number,
        Ok(verdict),
        &slot.t[..size_t],
        &slot.d[..size_d],
        leaves as u64,
    )
}

// `c` with N×t entries: the accumulated node becomes its fold with the new leaf.
pub(crate) fn take(
    run: &mut Run,
    small: SmallSetting,
    line: &[u8],
    store: &mut Store,
    out: &mut [u8; 512],
) -> usize
    requires { run.old.line < 2 ^ 62 }
    ensures taken { step_of run.new store.new (take result out.new)
        ≡ line_due (Dues.Challenge small) run.old store.old line.now }
    ensures safe { Safe run.old run.new result }
    ensures unchanged { run.new.due ≡ Dues.Nothing → store.new ≡ store.old }
{
    let setting = small.accepted.setting;
    let size = setting.columns * setting.t;
    let mut c = [0u8; 64];
    if !ternary_readers::read_ternary(line, b"c", &mut c[..size]) {
        return run.refuse(Refusal::BadLine.number(), out);
    }
    match fold(
        small,
        &store.a,
        store.first,
        run.under,
        &store.second,
        &c[..size],
    ) {
        Err(refusal) => run.refuse(refusal.number(), out),
        Ok(made) => {
            store.first = made.slot;
            run.due = Due::Leaf(small);
            run.line += 1;
            run.folds += 1;
            run.under = made.count;
            put(run.folds, small, made.verdict, &made.slot, made.count, out)
        }
    }
}

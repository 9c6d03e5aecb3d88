// The record `leaf`. A line that is refused changes no matrix.
ghost use Rattle.std.specs.Prelude.{◌≡◌, ◌^◌, ◌<◌, ◌≤◌, take};
ghost use Rattle.chain.specs.Reports.{leaf_line};
ghost use Rattle.chain.specs.Small.{numbers_in};
ghost use Rattle.states.specs.Held.{node_in, step_of, line_due, Safe};
ghost use Rattle.states.specs.declared.Due.TheVariants as Dues;
ghost use Rattle.runs.specs.Leaves.{LeafRead, LeafMade};

use chain::SmallSetting;
use lova::Profile;
use settings::Refusal;
use states::{Due, Run, Slot, Store};

// A leaf by commit: its node, and the leaves under it.
#[derive(Clone, Copy)]
struct Leaf {
    slot: Slot,
    count: u32,
}

// The leaf of a line `leaf` with m×t entries, or what refuses the line.
fn read(small: SmallSetting, line: &[u8], a: &[u64; 128]) -> Result<Leaf, Refusal>
    ensures comes_to { LeafRead (numbers_in small) a.now line.now result }
    ensures is_leaf { LeafMade (numbers_in small) a.now line.now result }
{
    let setting = small.accepted.setting;
    let size_a = setting.n * setting.m;
    let size_t = setting.n * setting.t;
    let size_d = setting.t * setting.t;
    let size_s = setting.m * setting.t;
    let mut t = [0u64; 16];
    let mut d = [0i64; 4];
    let mut s = [0i64; 32];
    if !field_readers::read_i64s(line, b"leaf", &mut s[..size_s]) {
        return Err(Refusal::BadLine);
    }
    let count = commitments::commit(
        setting,
        Profile::General,
        &a[..size_a],
        &s[..size_s],
        &mut t[..size_t],
        &mut d[..size_d],
    )?;
    Ok(Leaf {
        slot: Slot { t, d, s },
        count,
    })
}

// Writes the line of the leaf in a slot, and answers its length.
fn put(number: u64, small: SmallSetting, slot: &Slot, leaves: u32, out: &mut [u8; 512]) -> usize
    ensures { let p = numbers_in small in (result ≤ 512)
        × (take result out.new ≡ leaf_line p number (node_in p slot.now leaves).instance) }
{
    let setting = small.accepted.setting;
    let size_t = setting.n * setting.t;
    let size_d = setting.t * setting.t;
    reports::put_leaf(
        out,
        number,
        &slot.t[..size_t],
        &slot.d[..size_d],
        leaves as u64,
    )
}

// The first leaf becomes the accumulated node.
pub(crate) fn take_first(
    run: &mut Run,
    small: SmallSetting,
    line: &[u8],
    store: &mut Store,
    out: &mut [u8; 512],
) -> usize
    requires { run.old.line < 2 ^ 62 }
    ensures taken { step_of run.new store.new (take result out.new)
        ≡ line_due (Dues.First small) run.old store.old line.now }
    ensures safe { Safe run.old run.new result }
    ensures unchanged { run.new.due ≡ Dues.Nothing → store.new ≡ store.old }
{
    match read(small, line, &store.a) {
        Err(refusal) => run.refuse(refusal.number(), out),
        Ok(leaf) => {
            store.first = leaf.slot;
            run.due = Due::Leaf(small);
            run.line += 1;
            run.leaves += 1;
            run.under = leaf.count;
            put(run.leaves, small, &leaf.slot, leaf.count, out)
        }
    }
}

// A further leaf waits for its challenge.
// As `take_first`, but not one function with it: the slot, what is due next and what is under the node all differ, and
// one for both would have to be told all three.
pub(crate) fn take_further(
    run: &mut Run,
    small: SmallSetting,
    line: &[u8],
    store: &mut Store,
    out: &mut [u8; 512],
) -> usize
    requires { run.old.line < 2 ^ 62 }
    ensures taken { step_of run.new store.new (take result out.new)
        ≡ line_due (Dues.Leaf small) run.old store.old line.now }
    ensures safe { Safe run.old run.new result }
    ensures unchanged { run.new.due ≡ Dues.Nothing → store.new ≡ store.old }
{
    match read(small, line, &store.a) {
        Err(refusal) => run.refuse(refusal.number(), out),
        Ok(leaf) => {
            store.second = leaf.slot;
            run.due = Due::Challenge(small);
            run.line += 1;
            run.leaves += 1;
            put(run.leaves, small, &leaf.slot, leaf.count, out)
        }
    }
}

// The record `load`.
ghost use Rattle.std.specs.Prelude.{◌≡◌};
ghost use Rattle.text.specs.Fields.{record_of, read_u64};
ghost use Rattle.loads.specs.Loads.{load_word};
ghost use Rattle.load_runs.specs.Inputs.{asked_of};

// The leaf count and the seed of a `load` line.
#[tactic(auto, using(crate::proofs::Asking::unread_bad, crate::proofs::Asking::count_bad, crate::proofs::Asking::load_read))]
pub(crate) fn read_load(line: &[u8]) -> Option<(u64, u64)>
    ensures { result ≡ asked_of (record_of read_u64 load_word 2 line.now) }
{
    let mut two = [0u64; 2];
    if !field_readers::read_u64s(line, b"load", &mut two) {
        return None;
    }
    let [count, seed] = two;
    if !integers::inside(count, 1, loads::MOST_LEAVES) {
        return None;
    }
    Some((count, seed))
}

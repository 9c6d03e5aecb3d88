// Taking turns on the machine: which group's fold is next.
// Slices of a known length and no arrays: `lova_next_fold` is lent them by C and looks at their lengths itself.
#![tactic(auto)]

ghost use Rattle.std.specs.Prelude.{◌≡◌, ◌<◌, length};
ghost use Rattle.settings.specs.Refusals.{numbered};
ghost use Rattle.groups.specs.Groups.{groups, Group, ◌of◌};
ghost use Rattle.turns.specs.Turns.{turn, weights_inside, is_proper, goes_on, next_waiting, if_any, finds, found};
ghost use Rattle.turns.specs.Turns.{one_less, returns, next_fold};

use groups::GROUPS;
use settings::Refusal;

// The least and the greatest weight of a group.
pub const MIN_WEIGHT: u64 = 1;

pub const MAX_WEIGHT: u64 = 16;

// A turn: its group, and the folds used in it.
#[derive(Clone, Copy)]
pub struct Turn {
    pub group: u64,
    pub used: u64,
}

// Whose fold is next, if anybody's, and the turn with this fold counted; a refusal comes with the turn as it was.
#[derive(Clone, Copy)]
pub struct Found {
    pub next: Result<Option<u64>, Refusal>,
    pub turn: Turn,
}

// The same with the waiting counts, one less for the group that is named.
#[derive(Clone, Copy)]
pub struct Served {
    pub next: Result<Option<u64>, Refusal>,
    pub turn: Turn,
    pub waiting: [u32; GROUPS],
}

// Whether each weight is in its range. All are read whatever the first ones are, so that the machine code has one
// comparison for nearly all of them.
fn weights_inside(weights: &[u64]) -> bool
    requires { length weights.now ≡ groups }
    ensures { result ≡ weights_inside weights.now }
{
    let mut all = true;
    for weight in &weights[..GROUPS] {
        all &= integers::inside(*weight, MIN_WEIGHT, MAX_WEIGHT);
    }
    all
}

// Whether the weights, the turn's group and the folds used in it are in their ranges.
fn is_proper(weights: &[u64], group: u64, used: u64) -> bool
    requires { length weights.now ≡ groups }
    ensures { result ≡ is_proper weights.now (turn group used) }
{
    weights_inside(weights) && groups::is_group(group) && used <= weights[(group - 1) as usize]
}

// Whether the turn goes on: its weight is not reached, and its group has a fold waiting.
fn goes_on(weights: &[u64], waiting: &[u32], group: u64, used: u64) -> bool
    requires { (length weights.now ≡ groups) × (length waiting.now ≡ groups) × Group group }
    ensures { result ≡ goes_on weights.now waiting.now (turn group used) }
{
    let at = (group - 1) as usize;
    used < weights[at] && 0 < waiting[at]
}

// The first group after `group` that has a fold waiting, in rising order, from 8 to 1, if any has.
fn next_waiting(waiting: &[u32], group: u64) -> Option<u64>
    requires { (length waiting.now ≡ groups) × Group group }
    ensures { result ≡ if_any (next_waiting groups waiting.now group) }
{
    let mut next = group;
    for _ in 0..GROUPS {
        next = next % (GROUPS as u64) + 1;
        if 0 < waiting[(next - 1) as usize] {
            return Some(next);
        }
    }
    None
}

// An answer, and the turn that goes with it.
fn with_turn(next: Result<Option<u64>, Refusal>, group: u64, used: u64) -> Found
    ensures { finds (numbered result.next) result.turn ≡ finds (numbered next) (turn group used) }
{
    Found {
        next,
        turn: Turn { group, used },
    }
}

// Whose fold is next: that of the turn's own group, up to its weight and while it waits, else of the next that waits.
// `next_fold` and `lova_next_fold` lend it eight weights and eight counts.
pub fn find_next(weights: &[u64], waiting: &[u32], turn: Turn) -> Found
    requires { (length weights.now ≡ groups) × (length waiting.now ≡ groups) }
    ensures { finds (numbered result.next) result.turn ≡ found weights.now waiting.now turn }
{
    let Turn { group, used } = turn;
    if !is_proper(weights, group, used) {
        return with_turn(Err(Refusal::Turn), group, used);
    }
    if goes_on(weights, waiting, group, used) {
        return with_turn(Ok(Some(group)), group, used + 1);
    }
    match next_waiting(waiting, group) {
        Some(next) => with_turn(Ok(Some(next)), next, 1),
        None => with_turn(Ok(None), group, used),
    }
}

// The waiting counts, one less for a group.
fn one_less(waiting: [u32; GROUPS], group: u64) -> [u32; GROUPS]
    requires { Group group × (0 < waiting of group) }
    ensures { result ≡ one_less waiting group }
{
    let mut less = waiting;
    less[(group - 1) as usize] -= 1;
    less
}

// Names the next fold's group: the turn comes back with this fold counted, and the waiting counts with one less for it.
pub fn next_fold(weights: [u64; GROUPS], waiting: [u32; GROUPS], turn: Turn) -> Served
    ensures { returns (numbered result.next) result.turn result.waiting ≡ next_fold weights waiting turn }
{
    let Found { next, turn } = find_next(&weights, &waiting, turn);
    let left = match next {
        Ok(Some(group)) => one_less(waiting, group),
        Ok(None) => waiting,
        Err(_) => waiting,
    };
    Served {
        next,
        turn,
        waiting: left,
    }
}

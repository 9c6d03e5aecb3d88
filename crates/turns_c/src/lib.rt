// Taking turns for C: one function, which writes the turn and the waiting counts and returns a code. `include/lova.h`
// declares it.
#![tactic(auto)]

ghost use Rattle.std.specs.Prelude.{◌≡◌};
ghost use Rattle.codes.specs.Codes.{returned};
ghost use Rattle.turns_c.specs.Given.{lent, next_given};

use groups::GROUPS;
use settings::Refusal;
use turns::Turn;

// Names the next fold's group: writes the turn with this fold counted, and one less for that group. Refusals 7 and 20.
#[unsafe(no_mangle)]
pub extern "C" fn lova_next_fold(weights: &[u64], waiting: &mut [u32], turn: &mut [u64]) -> u8
    ensures { returned result (lent waiting.new turn.new)
        ≡ next_given weights.now (lent waiting.old turn.old) }
{
    if weights.len() != GROUPS {
        return Refusal::Lengths.number();
    }
    if waiting.len() != GROUPS {
        return Refusal::Lengths.number();
    }
    if turn.len() != 2 {
        return Refusal::Lengths.number();
    }
    let came = Turn {
        group: turn[0],
        used: turn[1],
    };
    let found = turns::find_next(weights, waiting, came);
    match found.next {
        // One match in the other: `Ok(Some(group))` leaves goals open in the proof.
        Ok(next) => match next {
            Some(group) => {
                turn[0] = found.turn.group;
                turn[1] = found.turn.used;
                waiting[(group - 1) as usize] -= 1;
                0
            }
            None => 104,
        },
        Err(refusal) => refusal.number(),
    }
}

// The run state.
ghost use Rattle.std.specs.Prelude.{◌≤◌};

use crate::Due;
use settings::Refusal;

// The run state: what is due, how many lines, leaves and folds were taken, and how many leaves are under the
// accumulated node.
// That `line` is below 2^62 is no invariant here but asked for where a line is taken: a run that has taken its last
// line would break it.
#[derive(Clone, Copy)]
pub struct Run {
    pub due: Due,
    pub line: u64,
    pub leaves: u64,
    pub folds: u64,
    pub under: u32,
    pub ghost leaves_counted: { leaves ≤ line },
    pub ghost folds_counted: { folds ≤ line },
}

impl Run {
    ghost use Rattle.std.specs.Prelude.{◌≡◌, ◌^◌, ◌<◌, take};
    ghost use Rattle.chain.specs.Chain.{start, refuse, bad_line};
    ghost use Rattle.states.specs.Held.{Whatever, state_of, counts_of, step_of, Safe};

    // Before the first line.
    #[tactic(auto, unfolding(crate::specs::Held::stage_of))]
    pub fn new() -> Run
        ensures { Whatever (λ m. state_of result m ≡ start) }
    {
        Run {
            due: Due::Param,
            line: 0,
            leaves: 0,
            folds: 0,
            under: 0,
        }
    }

    // Refuses the next line with a number, and stops: answers how many bytes of output stand at the buffer's start.
    // Any number, as before: a `Refusal` would ask more of callers.
    pub fn refuse(&mut self, number: u8, out: &mut [u8; 512]) -> usize
        requires { self.old.line < 2 ^ 62 }
        ensures whatever { Whatever (λ m.
            step_of self.new m (take result out.new)
            ≡ refuse (counts_of self.old) number) }
        ensures safe { Safe self.old self.new result }
    {
        self.due = Due::Nothing;
        self.line += 1;
        closing_reports::put_refused(out, self.line, number)
    }

    // Refuses a line that is no record; a run that has stopped says nothing more.
    pub fn refuse_bad(&mut self, out: &mut [u8; 512]) -> usize
        requires { self.old.line < 2 ^ 62 }
        ensures whatever { Whatever (λ m.
            step_of self.new m (take result out.new)
            ≡ bad_line (counts_of self.old) (state_of self.old m).stage) }
        ensures safe { Safe self.old self.new result }
    {
        match self.due {
            Due::Nothing => 0,
            _ => self.refuse(Refusal::BadLine.number(), out),
        }
    }
}

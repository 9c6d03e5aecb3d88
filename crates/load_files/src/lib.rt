// The chain file of a load, written block by block into a lent buffer.
#![tactic(auto)]

ghost use Rattle.std.specs.Prelude.{◌≡◌, not, [], ◌++◌, ◌+◌, ◌≤◌, length, take};
ghost use Rattle.settings.specs.Accepted.{parameters_in};
ghost use Rattle.chain.specs.Reports.{refused_line};
ghost use Rattle.loads.specs.Files.{pairs_text, chain_file};
ghost use Rattle.load_texts.specs.Texts.{parameters_for, longest_text};
ghost use Rattle.load_files.specs.Pending.{to_come, is_over, Puts};

use chain::SmallSetting;
use load_texts::LoadSetting;

// What is left of a load: the setting that it is drawn for, how many pairs of a leaf and a challenge come after the
// line that is due and after its own pair, and the state from which the next entries are drawn.
#[derive(Clone, Copy)]
pub struct Load {
    pub setting: LoadSetting,
    pub left: u64,
    pub state: u64,
}

// What is still to be printed, by the line that is due.
#[derive(Clone, Copy)]
pub enum Pending {
    // A refusal, which is printed alone: the number of the input line, and its own.
    Refusal { line: u64, number: u8 },
    Param(Load),
    Matrix(Load),
    // The leaf that no challenge comes after.
    First(Load),
    Leaf(Load),
    Challenge(Load),
    Nothing,
}

// A buffer that has room for the longest line of a file is long enough for any.
const LONGEST: usize = 2690;

impl Load {
    // What is due after a pair: the leaf of the next, or nothing where none is left.
    #[tactic(auto, unfolding(crate::specs::Pending::to_come, loads::specs::Files::pairs_text))]
    fn next_pair(self) -> Pending
        ensures { to_come result ≡ pairs_text (parameters_for self.setting) self.left self.state }
    {
        if self.left == 0 {
            return Pending::Nothing;
        }
        Pending::Leaf(Load {
            left: self.left - 1,
            ..self
        })
    }
}

impl Pending {
    // A refusal, which is printed alone.
    // Any number, as before: a `Refusal` would ask more of callers.
    #[tactic(auto, unfolding(crate::specs::Pending::to_come))]
    pub fn refused(line: u64, number: u8) -> Self
        ensures { to_come result ≡ refused_line line number }
    {
        Self::Refusal { line, number }
    }

    // The whole file of a leaf count and a seed.
    #[tactic(auto, unfolding(crate::specs::Pending::to_come))]
    pub fn file(small: SmallSetting, count: u64, seed: u64) -> Self
        requires { 1 ≤ count }
        ensures { to_come result ≡ chain_file (parameters_in small.accepted) count seed }
    {
        Self::Param(Load {
            setting: LoadSetting::new(small),
            left: count - 1,
            state: seed,
        })
    }

    // Whether a line is due.
    #[tactic(auto, unfolding(crate::specs::Pending::is_over))]
    fn is_due(&self) -> bool
        ensures { result ≡ not (is_over self.now) }
    {
        !matches!(self, Pending::Nothing)
    }

    // Writes the line that is due from `at` on, and answers the place past it.
    // The buffer and the place, as in `numeral_writers`: lines are put one after the other into one lent buffer, with
    // no heap, and a struct of both would only be taken apart by the writers of numerals.
    #[tactic(auto, unfolding(crate::specs::Pending::is_over))]
    fn put_line(&mut self, out: &mut [u8], at: usize) -> usize
        requires { at + longest_text ≤ length out.old }
        ensures { Puts self.old self.new at result out.old out.new }
    {
        match *self {
            Pending::Refusal { line, number } => {
                *self = Pending::Nothing;
                at + closing_reports::put_refused(&mut out[at..], line, number)
            }
            Pending::Param(load) => {
                *self = Pending::Matrix(load);
                load_texts::put_param(out, at, &load.setting.small.accepted.setting)
            }
            Pending::Matrix(mut load) => {
                let end = load_texts::put_matrix(out, at, &load.setting, &mut load.state);
                *self = Pending::First(load);
                end
            }
            Pending::First(mut load) => {
                let end = load_texts::put_witness(out, at, &load.setting, &mut load.state);
                *self = load.next_pair();
                end
            }
            Pending::Leaf(mut load) => {
                let end = load_texts::put_witness(out, at, &load.setting, &mut load.state);
                *self = Pending::Challenge(load);
                end
            }
            Pending::Challenge(mut load) => {
                let end = load_texts::put_challenge(out, at, &load.setting, &mut load.state);
                *self = load.next_pair();
                end
            }
            Pending::Nothing => at,
        }
    }

    // Writes lines to the buffer's start while one is due and there is room for the longest, and answers the place past
    // them.
    #[tactic(auto, using(crate::proofs::Telling::none_filled))]
    pub fn fill(&mut self, out: &mut [u8]) -> usize
        requires { longest_text ≤ length out.old }
        ensures pending_after { take result out.new ++ to_come self.new ≡ to_come self.old }
        ensures length_in_bounds { result ≤ length out.new }
        ensures self_value { result ≡ 0 → to_come self.old ≡ [] }
    {
        let most = out.len() - LONGEST;
        let mut at: usize = 0;
        // By the place: how far a line goes is known only once it is written.
        while at <= most && self.is_due() {
            at = self.put_line(out, at);
        }
        at
    }
}

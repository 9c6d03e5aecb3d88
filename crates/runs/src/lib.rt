// A line of the chain program, by what is due. A line that is refused changes no matrix.
#![tactic(auto)]

ghost use Rattle.std.specs.Prelude.{◌≡◌, ◌^◌, ◌<◌, take};
ghost use Rattle.chain.specs.Chain.{take_line};
ghost use Rattle.states.specs.Held.{state_of, step_of, Safe};
ghost use Rattle.states.specs.declared.Due.TheVariants as Dues;

mod challenge_lines;
mod leaves;
mod params;
mod public_matrices;

use states::{Due, Run, Store};

// Takes the next line, without its line feed, by what is due: answers how many bytes of output stand at the buffer's
// start.
pub fn take(run: &mut Run, line: &[u8], store: &mut Store, out: &mut [u8; 512]) -> usize
    requires { run.old.line < 2 ^ 62 }
    ensures taken { step_of run.new store.new (take result out.new) ≡ take_line (state_of run.old store.old) line.now }
    ensures safe { Safe run.old run.new result }
    ensures unchanged { run.new.due ≡ Dues.Nothing → store.new ≡ store.old }
{
    if line_machines::LONGEST_LINE < line.len() {
        return run.refuse_bad(out);
    }
    match run.due {
        Due::Param => params::take(run, line, out),
        Due::Matrix(setting) => public_matrices::take(run, setting, line, &mut store.a, out),
        Due::First(setting) => leaves::take_first(run, setting, line, store, out),
        Due::Leaf(setting) => leaves::take_further(run, setting, line, store, out),
        Due::Challenge(setting) => challenge_lines::take(run, setting, line, store, out),
        Due::Nothing => 0,
    }
}

// The record `param`.
ghost use Rattle.std.specs.Prelude.{◌≡◌, ◌^◌, ◌<◌, take};
ghost use Rattle.states.specs.Held.{Whatever, step_of, line_due, Safe};
ghost use Rattle.states.specs.declared.Due.TheVariants as Dues;

use states::{Due, Run};

// `param` with n, m, t, b, B.
pub(crate) fn take(run: &mut Run, line: &[u8], out: &mut [u8; 512]) -> usize
    requires { run.old.line < 2 ^ 62 }
    ensures whatever { Whatever (λ m.
        step_of run.new m (take result out.new)
        ≡ line_due Dues.Param run.old m line.now) }
    ensures safe { Safe run.old run.new result }
{
    match param_lines::read_setting(line) {
        Err(refusal) => run.refuse(refusal.number(), out),
        Ok(small) => {
            run.due = Due::Matrix(small);
            run.line += 1;
            0
        }
    }
}

// The record `a`, the public matrix. A line that is refused changes nothing.
ghost use Rattle.std.specs.Prelude.{◌≡◌, ◌^◌, ◌<◌, take};
ghost use Rattle.states.specs.Held.{Whatever, with_A, step_of, line_due, Safe};
ghost use Rattle.states.specs.declared.Due.TheVariants as Dues;

use chain::SmallSetting;
use settings::{Refusal, Setting};
use states::{Due, Run};

// `a` with n×m entries.
pub(crate) fn take(
    run: &mut Run,
    small: SmallSetting,
    line: &[u8],
    a: &mut [u64; 128],
    out: &mut [u8; 512],
) -> usize
    requires { run.old.line < 2 ^ 62 }
    ensures whatever { Whatever (λ m.
        step_of run.new (with_A a.new m) (take result out.new)
        ≡ line_due (Dues.Matrix small) run.old m line.now) }
    ensures safe { Safe run.old run.new result }
    ensures unchanged { run.new.due ≡ Dues.Nothing → a.new ≡ a.old }
{
    let Setting { n, m, .. } = small.accepted.setting;
    let size = n * m;
    let mut read = [0u64; 128];
    if !field_readers::read_u64s(line, b"a", &mut read[..size]) {
        return run.refuse(Refusal::BadLine.number(), out);
    }
    a[..size].copy_from_slice(&read[..size]);
    run.due = Due::First(small);
    run.line += 1;
    0
}

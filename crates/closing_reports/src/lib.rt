// The line that the chain program prints for a refusal, written to the start of a buffer. It is printed for a line that
// came and for one that is missing.
#![tactic(auto)]

ghost use Rattle.std.specs.Prelude.{◌≡◌, ◌≤◌, length, take};
ghost use Rattle.chain.specs.Reports.{refused_line};

// Writes the line of a refusal, with the number of the input line and the refusal's, and answers its length.
// Any number, as before: a `Refusal` would ask more of callers.
pub fn put_refused(out: &mut [u8], line: u64, number: u8) -> usize
    requires { 64 ≤ length out.old }
    ensures { (result ≤ length out.new) × (take result out.new ≡ refused_line line number) }
{
    let word = field_writers::put_bytes(out, 0, b"refused");
    let after_line = field_writers::put_number(out, word, line);
    let at = field_writers::put_number(out, after_line, number as u64);
    out[at] = 10;
    at + 1
}

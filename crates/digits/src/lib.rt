// The digit writer: document 01's digit rule by arithmetic alone, so that no step goes by a digit or by a sign.
#![tactic(auto)]

ghost use Rattle.std.specs.Prelude.{◌≡◌, ◌*◌, ◌/◌, ◌^◌, ◌≤◌, ◌<◌, nat_abs, length};
ghost use Rattle.digits.specs.Bases.{base_of, IsBase, InReach, AllInReach};
ghost use Rattle.digits.specs.Digits.{step_of, sign_of, digits_of, row_digits};

// A base b, and its reciprocal, by which sizes are divided: a product and a shift. The machine's own division may take
// longer for one size than for another, and the compiler puts a test of the size before it.
// That it is a base of the rule (IsBase) stays a clause, and is no invariant: `new` asks for no upper bound of b.
#[derive(Clone, Copy)]
pub struct Base {
    pub b: u64,
    pub reciprocal: u64,
}

impl Base {
    // What reciprocals are scaled by: 2^33.
    const SCALE: u64 = 8589934592;

    // The base b.
    pub fn new(b: u64) -> Base
        requires { 2 ≤ b }
        ensures { result ≡ base_of b }
    {
        Base {
            b,
            reciprocal: Base::SCALE / b + 1,
        }
    }

    // x / b, rounded down.
    fn divide(self, x: u64) -> u64
        requires { IsBase self × InReach self.b x }
        ensures { result ≡ x / self.b }
    {
        x * self.reciprocal / Base::SCALE
    }
}

// One step of the rule: a digit, and what is left of the size.
#[derive(Clone, Copy)]
pub struct Step {
    pub digit: i64,
    pub rest: u64,
}

// The lowest digit of the size w, and what w becomes. (w - d)/b is q, and the carry is the 1 that the rule adds, or 0.
pub fn take_digit(w: u64, base: Base) -> Step
    requires { IsBase base × InReach base.b w }
    ensures { result ≡ step_of base.b w }
{
    let b = base.b;
    let h = b / 2;
    let q = base.divide(w);
    let d = w - b * q;
    let carry = base.divide(d + b - 1 - h);
    Step {
        digit: d as i64 - (b * carry) as i64,
        rest: q + carry,
    }
}

// The sign of x: x >> 63 is 0, or -1 where x is below zero.
fn sign_of(x: i64) -> i64
    ensures { result ≡ sign_of x }
{
    2 * (x >> 63) + 1
}

// Writes the digits of x, as many as `out` holds: its sign times the digits of its size.
// By an index, so that must-fail's version begins at the second digit.
pub fn write_digits(x: i64, base: Base, out: &mut [i64])
    requires { IsBase base × InReach base.b (nat_abs x) }
    ensures { out.new ≡ digits_of base.b (length out.old) x }
{
    let sign = sign_of(x);
    let mut w = (sign * x) as u64;
    for p in 0..out.len() {
        let s = take_digit(w, base);
        out[p] = sign * s.digit;
        w = s.rest;
    }
}

// Writes the k digits of each entry of s into its own part of the row.
// By ranges of it: `chunks_exact_mut` asks for a k above 0, which `digits_ss` does not ask of C. The entries by an index,
// so that must-fail's version begins at the second.
pub fn write_row(s: &[i64], base: Base, k: usize, row: &mut [i64])
    requires base { IsBase base × AllInReach base.b s.now }
    requires row_len { length row.old ≡ length s.now * k }
    ensures { row.new ≡ row_digits base.b k s.now }
{
    for j in 0..s.len() {
        let start = j * k;
        let end = start + k;
        write_digits(s[j], base, &mut row[start..end]);
    }
}

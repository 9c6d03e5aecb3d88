// Sums of 32 products of 16-bit numbers, in 32 bits.
//
// The number of products is known, so the compiler writes the loop out, and multiplies pairs of 16-bit numbers and adds
// them at once. A caller has one such sum in its innermost loop, where a call would take longer than the sum.
#![tactic(auto)]

ghost use Rattle.std.specs.Prelude.{◌≡◌, ◌*ℤ◌};
ghost use Rattle.dots.specs.Dots.{dots, Reach};

fn product(a: i16, b: i16) -> i32
    ensures { result ≡ a *ℤ b }
{
    (a as i32) * (b as i32)
}

#[inline(always)]
pub fn thirty_two(p: &[i16], q: &[i16], x: usize, y: usize) -> i32
    requires { Reach p.now q.now x y 32 }
    ensures { result ≡ dots p.now q.now x y 32 }
{
    let mut sum: i32 = 0;
    for k in 0..32 {
        sum += product(p[x + k], q[y + k]);
    }
    sum
}

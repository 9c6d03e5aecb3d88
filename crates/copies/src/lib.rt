// Copies of rows, and laws about local arrays whose beginning is lent.
#![tactic(auto)]

ghost use Rattle.std.specs.Prelude.{◌≡◌, length};

// Copies the elements of one slice into another of its length. A loop: rows are short, and for each of them
// `copy_from_slice` calls memmove, with which a join of narrow matrices took a third longer.
pub fn copy<T: Copy>(from: &[T], to: &mut [T])
    requires { length from.now ≡ length to.old }
    ensures { to.new ≡ from.now }
{
    for (i, place) in to.iter_mut().enumerate() {
        *place = from[i];
    }
}

// The right half of a row of a joined matrix: a row of the second part, or its one element again and again.
ghost use Rattle.std.specs.Prelude.{◌≡◌, length, get_or};
ghost use Rattle.integers.specs.Lists.{build};
ghost use Rattle.lova.specs.Stored.{right_for};
ghost use Rattle.joins.specs.Columns.{column_of};

use lova::Profile;

// The column of the second part that stands in column j of the right half; so for rows.
pub(crate) fn column_of(profile: Profile, j: usize) -> usize
    ensures { result ≡ column_of profile j }
{
    match profile {
        Profile::General => j,
        Profile::Fresh => 0,
    }
}

// Spreads a row over out: a row of a general call is as long as out, that of a fresh one is one element.
pub(crate) fn spread<T: Copy>(profile: Profile, row: &[T], out: &mut [T])
    requires { length row.now ≡ right_for (length out.old) profile }
    ensures { (d : T) → out.new ≡ build (length out.old) (λ j. get_or row.now (column_of profile j) d) }
{
    match profile {
        Profile::General => copies::copy(row, out),
        Profile::Fresh => {
            // A loop, as `fill` asks more of T: that no clone of it fails.
            for place in out.iter_mut() {
                *place = row[0];
            }
        }
    }
}

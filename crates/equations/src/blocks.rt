// The entries of the joined T and D, [T1 T2] and [D1 V; V-transposed D2], read from their parts.
ghost use Rattle.std.specs.Prelude.{◌≡◌, ◌+◌, ◌*◌, ◌<◌, pos, length};
ghost use Rattle.matrices.specs.Tables.{signed};
ghost use Rattle.equations.specs.Parts.{FitsT, FitsD, across, joined_T, joined_D};

use crate::parts::Parts;

// Entry (i, j) of x, which has `cols` columns.
fn at(x: &[i64], cols: usize, i: usize, j: usize) -> i64
    requires { i * cols + j < length x.now }
    ensures { result ≡ signed cols x.now i j }
{
    x[i * cols + j]
}

impl Parts<'_> {
    // Entry (i, j) of the joined T.
    pub(crate) fn joined_t(&self, i: usize, j: usize) -> u64
        requires { FitsT self.now × (i < self.now.accepted.now.setting.n) × (j < across self.now) }
        ensures { pos result ≡ joined_T self.now i j }
    {
        let t = self.accepted.setting.t;
        if j < t {
            self.first.t[i * t + j]
        } else {
            self.second.t[i * self.right + (j - t)]
        }
    }

    // Entry (i, j) of the joined D.
    pub(crate) fn joined_d(&self, i: usize, j: usize) -> i64
        requires { FitsD self.now × (i < across self.now) × (j < across self.now) }
        ensures { result ≡ joined_D self.now i j }
    {
        let t = self.accepted.setting.t;
        if i < t {
            if j < t {
                at(self.first.d, t, i, j)
            } else {
                at(self.message.v, self.right, i, j - t)
            }
        } else if j < t {
            at(self.message.v, self.right, j, i - t)
        } else {
            at(self.second.d, self.right, i - t, j - t)
        }
    }
}

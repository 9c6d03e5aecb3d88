// The verdict's two equations: whether a message's D~ and T~, times the gadget G, make the joined D and T.
#![tactic(auto)]

ghost use Rattle.std.specs.Prelude.{◌≡◌, ◌+◌, ◌<◌, ◌≤◌, eqb};
ghost use Rattle.integers.specs.Residues.{word};
ghost use Rattle.integers.specs.Tests.{all};
ghost use Rattle.matrices.specs.Matrices.{product, both_sides};
ghost use Rattle.settings.specs.Settings.{HOf};
ghost use Rattle.settings.specs.Accepted.{parameters_in};
ghost use Rattle.lova.specs.Stored.{right_of, columns_of, matrix_T, matrix_D, right_T, right_D, sent_V, sent_T~, sent_D~};
ghost use Rattle.lova.specs.Tests.{equal, equal_words};
ghost use Rattle.lova.specs.Calls.{Fits, Bounded};
ghost use Rattle.lova.specs.Fold.{beside, blocks, gadget};
ghost use Rattle.equations.specs.Blocks.{equal_both};
ghost use Rattle.equations.specs.Parts.{FitsT, FitsD, across, joined_T, joined_D, summed_T, summed_D};

mod blocks;
mod parts;
mod recomposition;

use lova::{Instance, Message, Profile};
use parts::Parts;
use settings::AcceptedSetting;

impl Parts<'_> {
    // Whether entry (i, j), j <= i, of G-transposed D~ G is that of the joined D and, since it is entry (j, i) as well,
    // that one's too.
    fn block_equals(&self, i: usize, j: usize) -> bool
        requires { FitsD self.now × (i < across self.now) × (j ≤ i) }
        ensures { result ≡ equal_both (summed_D self.now) (joined_D self.now) i j }
    {
        let setting = &self.accepted.setting;
        let block = recomposition::weighted_block(
            self.message.dd,
            i,
            j,
            &setting.powers,
            setting.k,
        );
        block == self.joined_d(i, j) && block == self.joined_d(j, i)
    }

    // The same of row i, up to the diagonal.
    fn blocks_equal(&self, i: usize) -> bool
        requires { FitsD self.now × (i < across self.now) }
        ensures { result ≡ all (i + 1) (λ j. equal_both (summed_D self.now) (joined_D self.now) i j) }
    {
        (0..i + 1).all(|j| self.block_equals(i, j))
    }

    // Whether entry (i, j) of T~ G is that of the joined T, modulo 2^64.
    fn word_equals(&self, i: usize, j: usize) -> bool
        requires { FitsT self.now × (i < self.now.accepted.now.setting.n) × (j < across self.now) }
        ensures { result ≡ eqb (word (summed_T self.now i j)) (word (joined_T self.now i j)) }
    {
        let setting = &self.accepted.setting;
        let columns = (setting.t + self.right) * setting.k;
        let start = i * columns + j * setting.k;
        recomposition::weighted_words(self.message.tt, start, &setting.powers, setting.k)
            == self.joined_t(i, j)
    }

    // The same of row i.
    fn words_equal(&self, i: usize) -> bool
        requires { FitsT self.now × (i < self.now.accepted.now.setting.n) }
        ensures { result
            ≡ all (across self.now) (λ j. eqb (word (summed_T self.now i j)) (word (joined_T self.now i j))) }
    {
        (0..self.accepted.setting.t + self.right).all(|j| self.word_equals(i, j))
    }
}

// The first equation, G-transposed D~ G = D in whole numbers: compared by the rows of its lower half, each entry with
// both of D's, up to the first unequal one. It is compared on the columns as they are lent, so a fresh column once.
pub fn norm_holds(
    accepted: &AcceptedSetting,
    profile: Profile,
    first: Instance,
    second: Instance,
    message: Message,
) -> bool
    requires fits { Fits (matrix_D (parameters_in accepted.now)) first.d.now
        × Fits (sent_V (parameters_in accepted.now) profile) message.v.now
        × Fits (right_D (parameters_in accepted.now) profile) second.d.now
        × Fits (sent_D~ (parameters_in accepted.now) profile) message.dd.now }
    requires bounded { let p = parameters_in accepted.now in
        Bounded (columns_of p profile) (columns_of p profile) (HOf p) ((sent_D~ p profile).read message.dd.now) }
    ensures { let p = parameters_in accepted.now in
        let wide = p.t + right_of p profile in
        result
        ≡ equal wide wide
        (both_sides (columns_of p profile) (gadget p) ((sent_D~ p profile).read message.entry.dd.now))
        (blocks p.t ((matrix_D p).read first.entry.d.now) ((sent_V p profile).read message.entry.v.now)
        ((right_D p profile).read second.entry.d.now)) }
{
    let t = accepted.setting.t;
    let right = profile.right(t);
    let parts = Parts {
        accepted,
        profile,
        right,
        first,
        second,
        message,
    };
    // By a name, so that must-fail's versions answer another.
    let equal = (0..t + right).all(|i| parts.blocks_equal(i));
    equal
}

// The second equation, T~ G = T modulo 2^64: compared in the same way.
pub fn commitment_holds(
    accepted: &AcceptedSetting,
    profile: Profile,
    first: Instance,
    second: Instance,
    message: Message,
) -> bool
    requires { Fits (matrix_T (parameters_in accepted.now)) first.t.now
        × Fits (right_T (parameters_in accepted.now) profile) second.t.now
        × Fits (sent_T~ (parameters_in accepted.now) profile) message.tt.now }
    ensures { let p = parameters_in accepted.now in
        result
        ≡ equal_words p.n (p.t + right_of p profile)
        (product (columns_of p profile) ((sent_T~ p profile).read message.entry.tt.now) (gadget p))
        (beside p.t ((matrix_T p).read first.entry.t.now) ((right_T p profile).read second.entry.t.now)) }
{
    let right = profile.right(accepted.setting.t);
    let parts = Parts {
        accepted,
        profile,
        right,
        first,
        second,
        message,
    };
    let congruent = (0..accepted.setting.n).all(|i| parts.words_equal(i));
    congruent
}

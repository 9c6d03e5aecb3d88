// What the operations of a fold are lent and answer, and their profiles.
#![tactic(auto)]

ghost use Rattle.std.specs.Prelude.{◌≡◌};
ghost use Rattle.lova.specs.Stored.{right_for, copies_for};

// Of the verdict: yes with the number of leaves under the folded instance. A refused call has none.
#[derive(Clone, Copy, PartialEq, Eq, Debug)]
pub enum Verdict {
    Yes(u32),
    Long,
    Norm,
    Commitment,
}

// Of the relation test.
#[derive(Clone, Copy, PartialEq, Eq, Debug)]
pub enum Membership {
    Member,
    Long,
    Products,
    Commitment,
}

// An instance as it is lent: T and D, and the number of leaves under it.
#[derive(Clone, Copy)]
pub struct Instance<'a> {
    pub t: &'a [u64],
    pub d: &'a [i64],
    pub leaves: u32,
}

// A message as it is lent: V, T~ and D~.
#[derive(Clone, Copy)]
pub struct Message<'a> {
    pub v: &'a [i64],
    pub tt: &'a [u64],
    pub dd: &'a [i64],
}

// The profile of a call: the second witness has t columns, or it is one vector that stands for t equal columns. It goes
// beside the setting, and no struct holds both: the definitions take the two, and each clause would take it apart.
#[derive(Clone, Copy, PartialEq, Eq, Debug)]
pub enum Profile {
    General,
    Fresh,
}

impl Profile {
    // The columns of the second witness, where the first has t.
    pub fn right(self, t: usize) -> usize
        ensures { result ≡ right_for t self }
    {
        match self {
            Profile::General => t,
            Profile::Fresh => 1,
        }
    }

    // How often each of them stands in the general fold.
    pub fn copies(self, t: usize) -> usize
        ensures { result ≡ copies_for t self }
    {
        match self {
            Profile::General => 1,
            Profile::Fresh => t,
        }
    }
}

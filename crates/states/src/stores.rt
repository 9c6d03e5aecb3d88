// The room for the matrices of a run, each as large as that of the largest setting: there is no heap.

ghost use Rattle.std.specs.Prelude.{◌≡◌, pos, replicate};

// The room for a node's matrices T, D and S.
#[derive(Clone, Copy)]
pub struct Slot {
    pub t: [u64; 16],
    pub d: [i64; 4],
    pub s: [i64; 32],
}

// The room for A, for the accumulated node's matrices and for the new leaf's.
#[derive(Drop)]
pub struct Store {
    pub a: [u64; 128],
    pub first: Slot,
    pub second: Slot,
}

impl Slot {
    // A slot of zeros.
    pub fn new() -> Slot
        ensures words { result.t ≡ replicate 16 0 }
        ensures wholes { (result.d ≡ replicate 4 (pos 0)) × (result.s ≡ replicate 32 (pos 0)) }
    {
        Slot {
            t: [0; 16],
            d: [0; 4],
            s: [0; 32],
        }
    }
}

impl Store {
    // A store of zeros.
    pub fn new() -> Store
        ensures matrix { result.a ≡ replicate 128 0 }
        ensures nodes { (result.first.s ≡ replicate 32 (pos 0)) × (result.second.s ≡ replicate 32 (pos 0)) }
    {
        Store {
            a: [0; 128],
            first: Slot::new(),
            second: Slot::new(),
        }
    }
}

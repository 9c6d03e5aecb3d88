// The most leaves of a load.
#![tactic(auto)]

pub const MOST_LEAVES: u64 = 1000;

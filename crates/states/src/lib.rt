// The run state of the chain program: what is due and what was counted, and the room that its matrices stand in.
#![tactic(auto)]

mod runs;
mod stores;

use chain::SmallSetting;
pub use runs::Run;
pub use stores::{Slot, Store};

// The record that is due, with the setting once `param` was taken; nothing once a line was refused.
#[derive(Clone, Copy)]
pub enum Due {
    Param,
    Matrix(SmallSetting),
    First(SmallSetting),
    Leaf(SmallSetting),
    Challenge(SmallSetting),
    Nothing,
}

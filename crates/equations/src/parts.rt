// What the two equations compare.
ghost use Rattle.std.specs.Prelude.{◌≡◌};
ghost use Rattle.lova.specs.Stored.{right_for};

use lova::{Instance, Message, Profile};
use settings::AcceptedSetting;

// The two parts of a joined instance, of which the second has `right` columns, and the message. Lengths are clauses
// (`FitsT`, `FitsD`) and no ghosts, since each equation knows those of its own half alone.
#[derive(Clone, Copy)]
pub(crate) struct Parts<'a> {
    pub(crate) accepted: &'a AcceptedSetting,
    pub(crate) profile: Profile,
    pub(crate) right: usize,
    pub(crate) ghost right_is: { right ≡ right_for accepted.now.setting.t profile },
    pub(crate) first: Instance<'a>,
    pub(crate) second: Instance<'a>,
    pub(crate) message: Message<'a>,
}

// The groups that share a machine.
#![tactic(auto)]

ghost use Rattle.std.specs.Prelude.{◌≡◌};
ghost use Rattle.groups.specs.Groups.{is_group};

// How many groups there are.
pub const GROUPS: usize = 8;

// Whether a number is a group's, 1 to 8.
pub fn is_group(number: u64) -> bool
    ensures { result ≡ is_group number }
{
    integers::inside(number, 1, GROUPS as u64)
}

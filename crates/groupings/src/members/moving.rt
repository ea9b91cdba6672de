// Giving states a group of their own.
ghost use Rattle.std.specs.Prelude.{◌≡◌, ℕ, ◌<◌, ◌≤◌, true, false, length, if◌then◌else◌};
ghost use Rattle.groupings.specs.Members.{group_of, group_count, flagged, Moved};
ghost use Rattle.groupings.specs.Memberships.{groups_of};

use super::Membership;

// The numbers with this one at each of the first states that is flagged. A `for` over these alone, since an array
// made by `from_fn` goes over all its 128 places.
fn renumbered(numbers: &[u8; 128], states: usize, number: u8, flags: &[bool; 128]) -> [u8; 128]
    requires { states ≤ 128 }
    ensures at { (s : ℕ) → s < states → group_of result s ≡ (if flagged flags.now s then number else group_of numbers.now s) }
    ensures rest { (s : ℕ) → states ≤ s → group_of result s ≡ group_of numbers.now s }
{
    let mut after = *numbers;
    for state in 0..states {
        if flags[state] {
            after[state] = number;
        }
    }
    after
}

impl Membership {
    // The flagged states become the last group, where some are and every group keeps a member.
    pub(crate) fn moved(&self, flags: &[bool; 128]) -> Membership
        requires some { (s : ℕ) × (s < length (groups_of self.now)) × (flagged flags.now s ≡ true) }
        requires kept { (g : ℕ) → g < group_count (groups_of self.now) → (s : ℕ) × (s < length (groups_of self.now)) × (group_of (groups_of self.now) s ≡ g) × (flagged flags.now s ≡ false) }
        ensures { Moved flags.now (groups_of self.now) (groups_of result) }
    {
        Membership {
            numbers: renumbered(
                &self.numbers,
                self.states,
                u8::try_from(self.groups).unwrap(),
                flags,
            ),
            states: self.states,
            groups: self.groups + 1,
        }
    }
}

// What a membership says of the states' groups.
ghost use Rattle.std.specs.Prelude.{◌≡◌, ℕ, ◌<◌, ◌≤◌, length, replicate, ◌≢◌};
ghost use Rattle.groupings.specs.Members.{group_of, group_count};
ghost use Rattle.groupings.specs.Memberships.{groups_of, groups_in, nearest};

use super::Membership;
use systems::MAX_STATES;

// The nearest number of states that a system can have.
fn nearest(states: usize) -> usize
    ensures is { result ≡ nearest states }
    ensures range { (1 ≤ result) × (result ≤ 128) }
{
    states.clamp(1, MAX_STATES)
}

impl Membership {
    // All states in group 0. A number of states that no system has counts as the nearest that one
    // can have, 1 or 128.
    pub fn whole(states: usize) -> Membership
        ensures { groups_of result ≡ replicate (nearest states) 0 }
    {
        Membership {
            numbers: [0; 128],
            states: nearest(states),
            groups: 1,
        }
    }

    pub fn states(&self) -> usize
        ensures { result ≡ length (groups_of self.now) }
    {
        self.states
    }

    // The number of groups.
    pub fn groups(&self) -> usize
        ensures is { result ≡ group_count (groups_of self.now) }
        ensures few { result ≤ 128 }
    {
        self.groups
    }

    // The group of a state; 0 for a number beyond the states, as the list of the groups reads there, so that
    // the call needs no condition and its answer is always a group.
    pub fn group_of(&self, state: usize) -> usize
        ensures is { result ≡ group_of (groups_of self.now) state }
        ensures below { (result < group_count (groups_of self.now)) × (result < 128) }
    {
        self.numbers[..self.states]
            .get(state)
            .map_or(0, |number| usize::from(*number))
    }

    // The membership for a system with so many states: itself, or else all in group 0.
    pub(crate) fn fitted(&self, states: usize) -> Membership
        requires { (1 ≤ states) × (states ≤ 128) }
        ensures { groups_of result ≡ groups_in self.now states }
    {
        if self.states == states {
            *self
        } else {
            Membership::whole(states)
        }
    }

    // The lowest-numbered member of a group.
    pub(crate) fn lowest(&self, group: usize) -> usize
        requires { group < group_count (groups_of self.now) }
        ensures low { result < length (groups_of self.now) }
        ensures here { group_of (groups_of self.now) result ≡ group }
        ensures first { (s : ℕ) → s < result → group_of (groups_of self.now) s ≢ group }
    {
        (0..self.states)
            .find(|state| self.group_of(*state) == group)
            .unwrap()
    }
}

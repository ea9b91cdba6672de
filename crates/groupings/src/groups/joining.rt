// What a group is, by what its members are.
ghost use Rattle.std.specs.Prelude.{◌≡◌, ◌<◌, map};
ghost use Rattle.std.specs.List.{range_with_len};
ghost use Rattle.systems.specs.Model.{mark_or_unknown};
ghost use Rattle.colours.specs.Groupings.{surer, strength, group_step, group_mark, group_start};
ghost use Rattle.groupings.specs.Joined.{asked};
ghost use Rattle.groupings.specs.Members.{group_of};
ghost use Rattle.groupings.specs.Memberships.{groups_of};

use super::fitted::Fitted;
use systems::{Colour, Step, System};

// The surer of two steps. `max` looks both up in a table, which shows in `strengths`, where every step of a system is
// compared.
fn surer(a: Step, b: Step) -> Step
    ensures { result ≡ surer a b }
{
    if b == Step::Sure || a == Step::Absent {
        b
    } else {
        a
    }
}

impl<S: System> Fitted<'_, S> {
    // The strength of a state into a group: the best that its steps to the members offer.
    pub(super) fn strength(&self, from: usize, group: usize) -> Step
        ensures { result ≡ strength (asked (S.meaning self.now.system.now)) (group_of (groups_of self.now.members)) from group }
    {
        (0..self.system.states())
            .filter(|to| self.members.group_of(*to) == group)
            .map(|to| self.system.step_or_absent(from, to))
            .max()
            .unwrap_or(Step::Absent)
    }

    // The strengths of a state into all groups. One pass over the states fills them all: with a
    // search for each group a refinement took 1.6 to 2.8 times as long.
    pub(super) fn strengths(&self, from: usize) -> [Step; 128]
        ensures { result ≡ map (strength (asked (S.meaning self.now.system.now)) (group_of (groups_of self.now.members)) from) (range_with_len 0 128) }
    {
        let mut row = [Step::Absent; 128];
        for to in 0..self.system.states() {
            let group = self.members.group_of(to);
            row[group] = surer(row[group], self.system.step_or_absent(from, to));
        }
        row
    }

    // The marks at a state, unknown beyond their number.
    pub(super) fn marks_at(&self, state: usize) -> [Colour; 16]
        ensures { result ≡ map (mark_or_unknown (S.meaning self.now.system.now) state) (range_with_len 0 16) }
    {
        let mut row = [Colour::Undecided; 16];
        for mark in 0..self.system.marks() {
            row[mark] = self.system.mark_or_unknown(state, mark);
        }
        row
    }

    // The step between two groups: sure or absent if it is so from every member, else unsure.
    pub(super) fn step(&self, from: usize, to: usize) -> Step
        ensures { result ≡ group_step (S.meaning self.now.system.now) (group_of (groups_of self.now.members)) from to }
    {
        self.shared(from, |state| self.strength(state, to))
    }

    // The mark at a group: the known value that all members share, else unknown.
    pub(super) fn mark(&self, group: usize, mark: usize) -> Colour
        ensures { mark < (S.meaning self.now.system.now).marks → result ≡ group_mark (S.meaning self.now.system.now) (group_of (groups_of self.now.members)) group mark }
    {
        self.shared(group, |state| self.system.mark_or_unknown(state, mark))
    }

    // Whether some member of a group is a start.
    pub(super) fn start(&self, group: usize) -> bool
        ensures { result ≡ group_start (S.meaning self.now.system.now) (group_of (groups_of self.now.members)) group }
    {
        (0..self.system.states()).any(|state| self.members.group_of(state) == group
            && self.system.is_start(state))
    }
}

// Splitting a group by what leaves a rule undecided there.
ghost use Rattle.std.specs.Prelude.{◌≡◌, ◌<◌, ℕ, Decides, MatchOption};
ghost use Rattle.colours.specs.Groupings.{group_named};
ghost use Rattle.groupings.specs.Grouped.{groups_at, KeptIfRefused, Split};
ghost use Rattle.groupings.specs.Joined.{asked};
ghost use Rattle.groupings.specs.Members.{group_of, group_count};
ghost use Rattle.groupings.specs.Memberships.{groups_of};
ghost use Rattle.groupings.specs.Splits.{Within, Concerned, MembersDiffer, Divided, Told};
ghost use Rattle.groupings.specs.Answers.{answer_of};

use super::Grouping;
use super::answers::Answer;
use super::fitted::Fitted;
use crate::members::Membership;
use colours::Reason;
use systems::{Refusal, System};

// Whether the group of a reason and its mark or target exist.
fn is_within(reason: Reason, groups: usize, marks: usize) -> bool
    ensures { Decides result (Within groups marks reason) }
{
    match reason {
        Reason::UnknownMark { group, mark } => group < groups && mark < marks,
        Reason::UnsureStep { group, target } => group < groups && target < groups,
    }
}

// The group that a reason speaks of.
fn group_in(reason: Reason) -> usize
    ensures { result ≡ group_named reason }
{
    match reason {
        Reason::UnknownMark { group, .. } | Reason::UnsureStep { group, .. } => group,
    }
}

impl<S: System> Fitted<'_, S> {
    // What a state answers to a reason.
    fn answer(&self, reason: Reason, state: usize) -> Answer
        ensures { result ≡ answer_of (asked (S.meaning self.now.system.now)) (group_of (groups_of self.now.members)) reason state }
    {
        match reason {
            Reason::UnknownMark { mark, .. } => {
                Answer::Mark(self.system.mark_or_unknown(state, mark))
            }
            Reason::UnsureStep { target, .. } => Answer::Strength(self.strength(state, target)),
        }
    }

    // Whether a state is in the reason's group and gives another answer than this.
    fn departs(&self, reason: Reason, lead: Answer, state: usize) -> bool
        ensures { Decides result (Concerned (S.meaning self.now.system.now) reason (groups_of self.now.members) state × ¬ (answer_of (asked (S.meaning self.now.system.now)) (group_of (groups_of self.now.members)) reason state ≡ lead)) }
    {
        state < self.members.states()
            && self.members.group_of(state) == group_in(reason)
            && self.answer(reason, state) != lead
    }

    // Flags the members of the reason's group that do not answer as its lowest-numbered one does. A `for` over the
    // states that there are, since an array made by `from_fn` asks for all its 128 places.
    fn dissenting(&self, reason: Reason) -> [bool; 128]
        requires { Within (group_count (groups_of self.now.members)) (S.meaning self.now.system.now).marks reason }
        ensures { Told (S.meaning self.now.system.now) reason (groups_of self.now.members) result }
    {
        let lead = self.answer(reason, self.members.lowest(group_in(reason)));
        let mut flags = [false; 128];
        for state in 0..self.members.states() {
            flags[state] = self.departs(reason, lead, state);
        }
        flags
    }

    // The groups after a split, or none where all members answer alike.
    fn divided(&self, reason: Reason) -> Option<Membership>
        requires { Within (group_count (groups_of self.now.members)) (S.meaning self.now.system.now).marks reason }
        ensures { MatchOption result (MembersDiffer (S.meaning self.now.system.now) reason (groups_of self.now.members) → ⊥) (λ m. MembersDiffer (S.meaning self.now.system.now) reason (groups_of self.now.members) × Divided (S.meaning self.now.system.now) reason (groups_of self.now.members) (groups_of m)) }
    {
        let flags = self.dissenting(reason);
        if flags[..self.members.states()].iter().any(|flag| *flag) {
            Some(self.members.moved(&flags))
        } else {
            None
        }
    }
}

impl<S: System> Grouping<S> {
    // Splits the group of a reason: members that answer as the lowest-numbered one does (by their
    // mark, or their strength into the target) stay, all others become the last group. Refused
    // where the group or its mark or target does not exist (18), or all members answer alike (19).
    pub fn split_by(&mut self, reason: Reason) -> Result<(), Refusal>
        ensures below { self.new.system ≡ self.old.system }
        ensures answer { Split (S.System.meaning self.old.system) reason (groups_at S.System.meaning self.old) (groups_at S.System.meaning self.new) result }
        ensures kept { KeptIfRefused result self.old self.new }
    {
        let fitted = self.fitted();
        if !is_within(reason, fitted.members.groups(), fitted.system.marks()) {
            return Err(Refusal::SlipBeyondStudy);
        }
        self.members = fitted.divided(reason).ok_or(Refusal::MembersAgree)?;
        Ok(())
    }
}

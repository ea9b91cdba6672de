// What the members of a group have in common.
ghost use Rattle.std.specs.Prelude.{◌≡◌, ◌==◌, ℕ, ◌+◌, ◌*◌, ◌<◌, ◌≤◌, ◌||◌, false, List, length, map, slice_index_or, unwrap_or};
ghost use Rattle.std.specs.Bool.{then_some};
ghost use Rattle.std.specs.List.{range_with_len};
ghost use Rattle.systems.specs.declared.kinds.Step.TheVariants.{Sure};
ghost use Rattle.systems.specs.declared.kinds.Colour.TheVariants.{T};
ghost use Rattle.groupings.specs.Joined.{joined_step, joined_mark, joined_with, shared, AlikeFrom};
ghost use Rattle.groupings.specs.Members.{group_of};
ghost use Rattle.groupings.specs.Memberships.{groups_of};

use super::fitted::Fitted;
use systems::{Colour, Step, System};

// An answer of a group that is joined of its members' answers: a step or a mark is one of two where
// all are, else the third, and a group is a start where one is.
pub(super) trait Shared: Copy {
    ghost of_none: { Self };

    ghost joined: { Self → Self → Self };

    // The answer of a group with no member.
    fn of_none() -> Self
        ensures { result ≡ of_none };

    // What two members have in common.
    fn joined(self, other: Self) -> Self
        ensures { result ≡ joined self other };
}

impl Shared for Step {
    ghost of_none = { Sure };

    ghost joined = { joined_step };

    fn of_none() -> Step {
        Step::Sure
    }

    fn joined(self, other: Step) -> Step {
        if self == other { self } else { Step::Unsure }
    }
}

impl Shared for Colour {
    ghost of_none = { T };

    ghost joined = { joined_mark };

    fn of_none() -> Colour {
        Colour::T
    }

    fn joined(self, other: Colour) -> Colour {
        if self == other {
            self
        } else {
            Colour::Undecided
        }
    }
}

impl Shared for bool {
    ghost of_none = { false };

    ghost joined = { ◌||◌ };

    fn of_none() -> bool {
        false
    }

    fn joined(self, other: bool) -> bool {
        self || other
    }
}

// A row of so many answers. It's a trait, since the bound of a closure can't name an array whose length is a parameter.
pub(super) trait Row<A, const W: usize>: Copy {
    ghost answers: { Self → List A };

    fn answers(&self) -> &[A; W]
        ensures { result.now ≡ answers self.now };
}

impl<A: Copy, const W: usize> Row<A, W> for [A; W] {
    ghost answers = { λ row. row };

    fn answers(&self) -> &[A; W] {
        self
    }
}

// What the members before have in common with one more; the first one's answer as it is.
fn joined_with<A: Shared>(so_far: Option<A>, next: A) -> A
    ensures { result ≡ joined_with A.joined so_far next }
{
    match so_far {
        None => next,
        Some(before) => before.joined(next),
    }
}

// Joins the first places of a row, `count` many, to those from `start` on, which hold what the rows before it have in
// common where one was found.
fn join_row<A: Shared>(places: &mut [A], start: usize, found: bool, row: &[A], count: usize)
    requires room { start + count ≤ length places.old }
    requires long { count ≤ length row.now }
    ensures joined { (k : ℕ) → k < count → slice_index_or places.new (start + k) A.of_none ≡ joined_with A.joined (then_some found (slice_index_or places.old (start + k) A.of_none)) (slice_index_or row.now k A.of_none) }
    ensures others { (at : ℕ) → ((k : ℕ) → k < count → ¬ (at ≡ start + k)) → slice_index_or places.new at A.of_none ≡ slice_index_or places.old at A.of_none }
{
    for k in 0..count {
        let at = start + k;
        places[at] = joined_with(found.then_some(places[at]), row[k]);
    }
}

impl<S: System> Fitted<'_, S> {
    // What the members of a group have in common.
    pub(super) fn shared<A: Shared, F: Fn(usize) -> A>(&self, group: usize, answer: F) -> A
        requires { (f : F) (s : ℕ) → F.pre f s }
        ensures { (says : ℕ → A) → ((s : ℕ) (a : A) → F.post answer s a → a ≡ says s) → result ≡ unwrap_or (shared A.joined (λ s. group_of (groups_of self.now.members) s == group) says (S.meaning self.now.system.now).states) A.of_none }
    {
        (0..self.system.states())
            .filter(|state| self.members.group_of(*state) == group)
            .map(answer)
            .reduce(A::joined)
            .unwrap_or(A::of_none())
    }

    // Writes what the rows of each group's members have in common into the row of the group, and leaves the rows of
    // groups with no member. It takes one pass over the states: with a search for each group a refinement took 1.6 to
    // 2.8 times as long. A group's first row is taken whole; of a later one no more than the first places, `width`
    // many, are joined, since beyond them all rows are alike.
    pub(super) fn share_all<A: Shared, const W: usize, R: Row<A, W>, F: Fn(usize) -> R>(
        &self,
        places: &mut [A],
        width: usize,
        row: F,
    )
        requires callable { (f : F) (s : ℕ) → F.pre f s }
        requires long { length places.old ≡ 128 * W }
        requires wide { width ≤ W }
        ensures { (says : ℕ → ℕ → A) (rest : A) → ((s : ℕ) (r : R) → F.post row s r → R.answers r ≡ map (says s) (range_with_len 0 W)) → AlikeFrom A.joined width W says rest → (g k : ℕ) (d : A) → g < 128 → k < W → slice_index_or places.new (g * W + k) d ≡ unwrap_or (shared A.joined (λ s. group_of (groups_of self.now.members) s == g) (λ s. says s k) (S.meaning self.now.system.now).states) (slice_index_or places.old (g * W + k) d) }
    {
        let mut found = [false; 128];
        for state in 0..self.system.states() {
            let group = self.members.group_of(state);
            let count = if found[group] { width } else { W };
            join_row(places, group * W, found[group], row(state).answers(), count);
            found[group] = true;
        }
    }
}

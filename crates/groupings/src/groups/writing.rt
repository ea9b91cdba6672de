// Writing a grouping out as a table. Each question to the system below is asked once: each state
// is in one group, whose rows take its strengths and its marks.
ghost use Rattle.std.specs.Prelude.{◌≡◌, ℕ, ◌<◌, false, map, replicate};
ghost use Rattle.std.specs.List.{range_with_len};
ghost use Rattle.systems.specs.Model.{Agree, mark_or_unknown, is_start};
ghost use Rattle.systems.specs.declared.kinds.Step.TheVariants.{Sure};
ghost use Rattle.systems.specs.declared.kinds.Colour.TheVariants.{T};
ghost use Rattle.systems.specs.Tabled.{step_at, value_at, start_at};
ghost use Rattle.colours.specs.Groupings.{strength, group_step, group_mark, group_start};
ghost use Rattle.systems.specs.Written.{table_model};
ghost use Rattle.groupings.specs.Joined.{asked};
ghost use Rattle.groupings.specs.Grouped.{grouping_model};
ghost use Rattle.groupings.specs.Members.{group_of, by_list};
ghost use Rattle.groupings.specs.Memberships.{groups_of};

use super::Grouping;
use super::fitted::Fitted;
use super::sharing::Shared;
use systems::{Colour, Step, System, Table};

impl<S: System> Fitted<'_, S> {
    // Writes the steps between the groups.
    fn write_steps(&self, steps: &mut [Step])
        requires { steps.old ≡ replicate 16384 Sure }
        ensures { (g h : ℕ) → g < 128 → h < 128 → step_at steps.new g h ≡ group_step (S.meaning self.now.system.now) (group_of (groups_of self.now.members)) g h }
    {
        self.share_all(
            steps,
            self.members.groups(),
            |state| -> [Step; 128]
                ensures { result ≡ map (strength (asked (S.meaning self.entry.now.system.now)) (group_of (groups_of self.entry.now.members)) state) (range_with_len 0 128) }
            { self.strengths(state) },
        );
    }

    // Writes the marks at the groups.
    fn write_marks(&self, marks: &mut [Colour])
        requires { marks.old ≡ replicate 2048 T }
        ensures { (g p : ℕ) → g < 128 → p < (S.meaning self.now.system.now).marks → value_at marks.new g p ≡ group_mark (S.meaning self.now.system.now) (group_of (groups_of self.now.members)) g p }
    {
        self.share_all(
            marks,
            self.system.marks(),
            |state| -> [Colour; 16]
                ensures { result ≡ map (mark_or_unknown (S.meaning self.entry.now.system.now) state) (range_with_len 0 16) }
            { self.marks_at(state) },
        );
    }

    // Writes which groups are starts.
    fn write_starts(&self, starts: &mut [bool])
        requires { starts.old ≡ replicate 128 false }
        ensures { (g : ℕ) → g < 128 → start_at starts.new g ≡ group_start (S.meaning self.now.system.now) (group_of (groups_of self.now.members)) g }
    {
        self.share_all(
            starts,
            1,
            |state| -> [bool; 1]
                ensures { result ≡ map (λ k. is_start (S.meaning self.entry.now.system.now) state) (range_with_len 0 1) }
            { [self.system.is_start(state)] },
        );
    }

    // The table of the groups.
    fn tabled(&self) -> Table
        ensures { Agree (by_list (S.meaning self.now.system.now) (groups_of self.now.members)) (table_model result) }
    {
        let mut steps = [Step::of_none(); 16384];
        let mut marks = [Colour::of_none(); 2048];
        let mut starts = [bool::of_none(); 128];
        self.write_steps(&mut steps);
        self.write_marks(&mut marks);
        self.write_starts(&mut starts);
        Table::from_parts(
            self.members.groups(),
            self.system.marks(),
            steps,
            marks,
            starts,
        )
        .unwrap()
    }
}

impl<S: System> Grouping<S> {
    // A table that answers every question as the grouping does. Each step, mark and start of the
    // system below is asked for once.
    pub fn write_out(&self) -> Table
        ensures { Agree (grouping_model S.System.meaning self.now) (table_model result) }
    {
        self.fitted().tabled()
    }
}

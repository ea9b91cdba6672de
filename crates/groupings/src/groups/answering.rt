// A grouping is a system: its states are the groups.
ghost use Rattle.groupings.specs.Grouped.{grouping_model};
ghost use Rattle.groupings.specs.laws.GroupLaws.{grouping_lawful};

use super::Grouping;
use systems::{Colour, Refusal, Step, System};

impl<S: System> System for Grouping<S> {
    ghost meaning = { grouping_model S.System.meaning };

    ghost lawful = { λ g. grouping_lawful (S.System.meaning g.system) g.members (S.System.lawful g.system) };

    fn states(&self) -> usize {
        self.members().groups()
    }

    fn marks(&self) -> usize {
        self.system.marks()
    }

    fn step(&self, from: usize, to: usize) -> Result<Step, Refusal> {
        let fitted = self.fitted();
        let groups = fitted.members.groups();
        if from >= groups || to >= groups {
            return Err(Refusal::OutOfRange);
        }
        Ok(fitted.step(from, to))
    }

    fn mark(&self, state: usize, mark: usize) -> Result<Colour, Refusal> {
        let fitted = self.fitted();
        if state >= fitted.members.groups() || mark >= self.marks() {
            return Err(Refusal::OutOfRange);
        }
        Ok(fitted.mark(state, mark))
    }

    fn start(&self, state: usize) -> Result<bool, Refusal> {
        let fitted = self.fitted();
        if state >= fitted.members.groups() {
            return Err(Refusal::OutOfRange);
        }
        Ok(fitted.start(state))
    }
}

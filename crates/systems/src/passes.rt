// The pass store, a system that is computed from its limit of passes.
ghost use Rattle.std.specs.Prelude.{◌≡◌, ◌<◌, ◌≤◌, ◌⊎◌, MatchResult};
ghost use Rattle.systems.specs.Passes.{pass_model, pass_step, pass_mark};
ghost use Rattle.systems.specs.laws.PassLaws.{pass_lawful};
ghost use Rattle.systems.specs.declared.refusals.Refusal.TheVariants.{PassLimit};

use crate::interface::System;
use crate::kinds::{Colour, Step};
use crate::refusals::Refusal;

const MAX_PASSES: usize = 30;

const MARKS: usize = 2;

// An onboard store that discards a scene once a number of downlink passes was taken: state 2k + r
// has k passes taken, and r is 1 when the scene was received in one of them.
#[derive(Clone, Copy)]
pub struct PassStore {
    limit: usize,
    ghost ranged: { (1 ≤ limit) × (limit ≤ 30) },
}

impl PassStore {
    // The pass store of a limit of 1 to 30 passes.
    pub fn new(limit: usize) -> Result<PassStore, Refusal>
        ensures { MatchResult result (λ p. (p.limit ≡ limit) × (1 ≤ limit) × (limit ≤ 30)) (λ e. (e ≡ PassLimit) × ((limit < 1) ⊎ (30 < limit))) }
    {
        if !(1..=MAX_PASSES).contains(&limit) {
            return Err(Refusal::PassLimit);
        }
        Ok(PassStore { limit })
    }
}

// The step between two states of the pass store with this limit.
fn step_between(limit: usize, from: usize, to: usize) -> Step
    ensures { result ≡ pass_step limit from to }
{
    if from / 2 >= limit {
        return if from == to { Step::Sure } else { Step::Absent };
    }
    if to / 2 != from / 2 + 1 {
        return Step::Absent;
    }
    if from % 2 == to % 2 {
        Step::Sure
    } else if from % 2 < to % 2 {
        Step::Unsure
    } else {
        Step::Absent
    }
}

impl System for PassStore {
    ghost meaning = { λ s. pass_model s.limit };

    ghost lawful = { λ s. pass_lawful s.limit s.ranged.0 s.ranged.1 };

    fn states(&self) -> usize {
        2 * self.limit + 2
    }

    fn marks(&self) -> usize {
        MARKS
    }

    fn step(&self, from: usize, to: usize) -> Result<Step, Refusal> {
        let states = self.states();
        if from >= states || to >= states {
            return Err(Refusal::OutOfRange);
        }
        Ok(step_between(self.limit, from, to))
    }

    fn mark(&self, state: usize, mark: usize) -> Result<Colour, Refusal> {
        if state >= self.states() || mark >= MARKS {
            return Err(Refusal::OutOfRange);
        }
        let holds = if mark == 0 {
            state % 2 == 1
        } else {
            state / 2 == self.limit
        };
        Ok(Colour::from(holds))
    }

    fn start(&self, state: usize) -> Result<bool, Refusal> {
        if state >= self.states() {
            return Err(Refusal::OutOfRange);
        }
        Ok(state == 0)
    }
}

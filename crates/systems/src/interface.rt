// What every kind of system answers.
ghost use Rattle.std.specs.Prelude.{◌≡◌, ◌<◌};
ghost use Rattle.systems.specs.Model.{Model, Lawful, step_answer, mark_answer, start_answer, step_or_absent, mark_or_unknown, is_start};

use crate::kinds::{Colour, Step};
use crate::refusals::Refusal;

// A system of steps, of which some may be unsure and some marks unknown (a Kripke modal transition
// system). A new kind gives its meaning and a proof of the laws; all that is built on systems then
// serves it. Questions alter nothing, so the same question has the same answer.
pub trait System {
    // What the system is.
    ghost meaning: { Self → Model };

    // The counts are in range, no state is without a possible step out, and there is a start.
    ghost lawful: { (s : Self) → Lawful (meaning s) };

    fn states(&self) -> usize
        ensures { result ≡ (meaning self.now).states };

    fn marks(&self) -> usize
        ensures { result ≡ (meaning self.now).marks };

    // The step from one state to another. Each kind tests the numbers of its questions itself: an inner question that
    // is told that they are in range would be a public call with a condition.
    fn step(&self, from: usize, to: usize) -> Result<Step, Refusal>
        ensures { result ≡ step_answer (meaning self.now) from to };

    // The value of a mark at a state.
    fn mark(&self, state: usize, mark: usize) -> Result<Colour, Refusal>
        ensures { result ≡ mark_answer (meaning self.now) state mark };

    // Whether a state is a start.
    fn start(&self, state: usize) -> Result<bool, Refusal>
        ensures { result ≡ start_answer (meaning self.now) state };

    // The step from one state to another; absent where one of them does not exist.
    final fn step_or_absent(&self, from: usize, to: usize) -> Step
        ensures is { result ≡ step_or_absent (meaning self.now) from to }
        ensures in_range { from < (meaning self.now).states → to < (meaning self.now).states → result ≡ (meaning self.now).step from to }
    {
        self.step(from, to).unwrap_or(Step::Absent)
    }

    // The value of a mark at a state; undecided where one of them does not exist.
    final fn mark_or_unknown(&self, state: usize, mark: usize) -> Colour
        ensures is { result ≡ mark_or_unknown (meaning self.now) state mark }
        ensures in_range { state < (meaning self.now).states → mark < (meaning self.now).marks → result ≡ (meaning self.now).mark state mark }
    {
        self.mark(state, mark).unwrap_or(Colour::Undecided)
    }

    // Whether a state exists and is a start.
    final fn is_start(&self, state: usize) -> bool
        ensures is { result ≡ is_start (meaning self.now) state }
        ensures in_range { state < (meaning self.now).states → result ≡ (meaning self.now).start state }
    {
        self.start(state).unwrap_or(false)
    }
}

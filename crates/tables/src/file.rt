// A file that was accepted, as a system that is read where its bytes lie.
ghost use Rattle.std.specs.Prelude.{◌≡◌, ◌+◌, ◌*◌, ◌<◌, Some, None, length, MatchResult};
ghost use Rattle.std.proofs.Math.Nat.{le_of_eq};
ghost use Rattle.tables.specs.Conditions.{LawfulBodies, bodies_fault};
ghost use Rattle.tables.specs.Files.{body_model, cell};
ghost use Rattle.tables.specs.laws.FileLaws.{file_lawful};

use crate::bodies::Bodies;
use systems::{Colour, Fault, Refusal, Step, System};

#[derive(Clone, Copy)]
pub(crate) struct TableFile<'a> {
    bodies: Bodies<'a>,
    ghost lawful: { LawfulBodies bodies.states bodies.steps.now bodies.starts.now },
}

impl<'a> TableFile<'a> {
    // The file of these bodies, where their bytes meet the conditions.
    pub(crate) fn new(bodies: Bodies<'a>) -> Result<TableFile<'a>, Fault>
        ensures { MatchResult result (λ f. (bodies_fault bodies.entry.states bodies.entry.steps.now bodies.entry.values.now bodies.entry.starts.now ≡ None) × (f.bodies ≡ bodies.entry)) (λ e. bodies_fault bodies.entry.states bodies.entry.steps.now bodies.entry.values.now bodies.entry.starts.now ≡ Some e) }
    {
        if !bodies.is_listed() {
            return Err(Refusal::BodyByte.into());
        }
        if !bodies.all_go() {
            return Err(Refusal::NoStepOut.into());
        }
        if !bodies.has_start() {
            return Err(Refusal::NoStart.into());
        }
        Ok(TableFile { bodies })
    }
}

// The byte at a row and a column of a body.
fn byte_at(body: &[u8], width: usize, row: usize, column: usize) -> u8
    requires { row * width + column < length body.now }
    ensures { result ≡ cell body.now width row column }
{
    body[row * width + column]
}

impl System for TableFile<'_> {
    ghost meaning = { λ f. body_model f.bodies.states f.bodies.marks f.bodies.steps.now f.bodies.values.now f.bodies.starts.now };

    ghost lawful = { λ f. file_lawful f.bodies.states f.bodies.marks f.bodies.steps.now f.bodies.values.now f.bodies.starts.now f.lawful (le_of_eq f.bodies.starts_fill) f.bodies.ranged };

    fn states(&self) -> usize {
        self.bodies.states
    }

    fn marks(&self) -> usize {
        self.bodies.marks
    }

    fn step(&self, from: usize, to: usize) -> Result<Step, Refusal> {
        let Bodies { states, steps, .. } = self.bodies;
        if from >= states || to >= states {
            return Err(Refusal::OutOfRange);
        }
        Ok(Step::try_from(byte_at(steps, states, from, to)).unwrap_or(Step::Absent))
    }

    fn mark(&self, state: usize, mark: usize) -> Result<Colour, Refusal> {
        let Bodies {
            states,
            marks,
            values,
            ..
        } = self.bodies;
        if state >= states || mark >= marks {
            return Err(Refusal::OutOfRange);
        }
        Ok(Colour::try_from(byte_at(values, marks, state, mark)).unwrap_or(Colour::Undecided))
    }

    fn start(&self, state: usize) -> Result<bool, Refusal> {
        if state >= self.bodies.states {
            return Err(Refusal::OutOfRange);
        }
        Ok(self.bodies.starts[state] == 1)
    }
}

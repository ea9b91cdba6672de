// A table's answers are read off its arrays.
ghost use Rattle.systems.specs.Written.{table_model};
ghost use Rattle.systems.specs.laws.TableLaws.{table_lawful};

use super::Table;
use crate::interface::System;
use crate::kinds::{Colour, Step};
use crate::refusals::Refusal;

impl System for Table {
    ghost meaning = { table_model };

    ghost lawful = { λ t. table_lawful t.states t.marks t.steps t.values t.starts t.ranged t.lawful };

    fn states(&self) -> usize {
        self.states
    }

    fn marks(&self) -> usize {
        self.marks
    }

    fn step(&self, from: usize, to: usize) -> Result<Step, Refusal> {
        if from >= self.states || to >= self.states {
            return Err(Refusal::OutOfRange);
        }
        Ok(self.steps[from * 128 + to])
    }

    fn mark(&self, state: usize, mark: usize) -> Result<Colour, Refusal> {
        if state >= self.states || mark >= self.marks {
            return Err(Refusal::OutOfRange);
        }
        Ok(self.values[state * 16 + mark])
    }

    fn start(&self, state: usize) -> Result<bool, Refusal> {
        if state >= self.states {
            return Err(Refusal::OutOfRange);
        }
        Ok(self.starts[state])
    }
}

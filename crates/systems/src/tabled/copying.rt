// Writing out any system. Only questions in range are asked, and a place that none asks for stays blank. The arrays
// are lent to those that write them: where one is returned, it is copied once more.
ghost use Rattle.std.specs.Prelude.{◌≡◌, ℕ, ◌*◌, ◌+◌, ◌<◌, ◌≤◌, false, length, replicate, slice_index_or};
ghost use Rattle.systems.specs.Model.{Agree, step_or_absent, mark_or_unknown, is_start};
ghost use Rattle.systems.specs.Tabled.{step_at, value_at, start_at, Filled};
ghost use Rattle.systems.specs.Written.{table_model};
ghost use Rattle.systems.specs.declared.kinds.Step.TheVariants.{Absent};
ghost use Rattle.systems.specs.declared.kinds.Colour.TheVariants.{Undecided};

use super::Table;
use crate::interface::System;
use crate::kinds::{Colour, Step};

// Writes the answers to the questions 0 to `count` - 1 from a place on, and leaves the other places.
fn fill_row<T: Copy, F: Fn(usize) -> T>(cells: &mut [T], from: usize, count: usize, answer: F)
    requires callable { F.IsAlwaysCallable answer }
    requires fits { from + count ≤ length cells.old }
    ensures row { (t : ℕ → T) → ((k : ℕ) (y : T) → F.post answer k y → y ≡ t k) → (k : ℕ) (d : T) → k < count → slice_index_or cells.new (from + k) d ≡ t k }
    ensures before { (k : ℕ) (d : T) → k < from → slice_index_or cells.new k d ≡ slice_index_or cells.old k d }
    ensures after { (k : ℕ) (d : T) → from + count ≤ k → slice_index_or cells.new k d ≡ slice_index_or cells.old k d }
{
    for k in 0..count {
        cells[from + k] = answer(k);
    }
}

// Writes so many rows, each at the beginning of its `width` places.
fn fill_rows<T: Copy, F: Fn(usize, usize) -> T>(
    cells: &mut [T],
    width: usize,
    rows: usize,
    columns: usize,
    answer: F,
)
    requires callable { F.IsAlwaysCallable answer }
    requires fits { (rows * width ≤ length cells.old) × (columns ≤ width) }
    ensures { (t : ℕ → ℕ → T) → ((row column : ℕ) (y : T) → F.post answer row column y → y ≡ t row column) → Filled width rows columns t cells.old cells.new }
{
    for row in 0..rows {
        fill_row(cells, row * width, columns, |column| answer(row, column));
    }
}

// Writes the steps from each state into its row of 128.
fn write_steps<S: System>(system: &S, steps: &mut [Step; 16384])
    requires { steps.old ≡ replicate 16384 Absent }
    ensures { (s t : ℕ) → s < 128 → t < 128 → step_at steps.new s t ≡ step_or_absent (S.meaning system.now) s t }
{
    let states = system.states();
    fill_rows(
        steps,
        128,
        states,
        states,
        |from, to| system.step_or_absent(from, to),
    );
}

// Writes the marks at each state into its row of 16.
fn write_marks<S: System>(system: &S, values: &mut [Colour; 2048])
    requires { values.old ≡ replicate 2048 Undecided }
    ensures { (s p : ℕ) → s < 128 → p < 16 → value_at values.new s p ≡ mark_or_unknown (S.meaning system.now) s p }
{
    fill_rows(
        values,
        16,
        system.states(),
        system.marks(),
        |state, mark| system.mark_or_unknown(state, mark),
    );
}

fn write_starts<S: System>(system: &S, starts: &mut [bool; 128])
    requires { starts.old ≡ replicate 128 false }
    ensures { (s : ℕ) → s < 128 → start_at starts.new s ≡ is_start (S.meaning system.now) s }
{
    fill_row(starts, 0, system.states(), |state| system.is_start(state));
}

impl Table {
    // A copy that answers every question as the system does.
    pub fn copy_of<S: System>(system: &S) -> Table
        ensures { Agree (S.meaning system.now) (table_model result) }
    {
        let mut steps = [Step::Absent; 16384];
        let mut values = [Colour::Undecided; 2048];
        let mut starts = [false; 128];
        write_steps(system, &mut steps);
        write_marks(system, &mut values);
        write_starts(system, &mut starts);
        Table {
            states: system.states(),
            marks: system.marks(),
            steps,
            values,
            starts,
        }
    }
}

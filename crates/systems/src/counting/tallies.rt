// Counting by asking every question once for each kind of answer.
ghost use Rattle.std.specs.Prelude.{◌≡◌, ℕ, Bool, true, ◌≤◌};
ghost use Rattle.systems.specs.Below.{count_below, count_cells};
ghost use Rattle.systems.specs.Counted.{steps_of, marks_of, Counted};

use super::Census;
use crate::interface::System;
use crate::kinds::{Colour, Step};

// At how many numbers below n a test passes. A `for`, which is compiled without a jump on each answer:
// `filter(..).count()` has one, and takes up to eight times as long.
fn count_below<F: Fn(usize) -> bool>(n: usize, test: F) -> usize
    requires { F.IsAlwaysCallable test }
    ensures is { (t : ℕ → Bool) → ((k : ℕ) (b : Bool) → F.post test k b → b ≡ t k) → result ≡ count_below t n }
    ensures few { result ≤ n }
{
    let mut count = 0;
    for k in 0..n {
        if test(k) {
            count += 1;
        }
    }
    count
}

// At how many cells of a table of at most 128 rows and columns a test passes. A `for`, since of `map(..).sum()` it
// stays open that the sum fits: before a test is known no more is known of a row's count than its bound.
fn count_cells<F: Fn(usize, usize) -> bool>(rows: usize, columns: usize, test: F) -> usize
    requires callable { F.IsAlwaysCallable test }
    requires small { (rows ≤ 128) × (columns ≤ 128) }
    ensures { (t : ℕ → ℕ → Bool) → ((row column : ℕ) (b : Bool) → F.post test row column b → b ≡ t row column) → result ≡ count_cells t rows columns }
{
    let mut count = 0;
    for line in 0..rows {
        count += count_below(columns, |column| test(line, column));
    }
    count
}

fn count_steps<S: System>(system: &S, kind: Step) -> usize
    ensures { result ≡ steps_of (S.meaning system.now) kind }
{
    let states = system.states();
    count_cells(
        states,
        states,
        |from, to| system.step_or_absent(from, to) == kind,
    )
}

fn count_marks<S: System>(system: &S, value: Colour) -> usize
    ensures { result ≡ marks_of (S.meaning system.now) value }
{
    count_cells(
        system.states(),
        system.marks(),
        |state, mark| system.mark_or_unknown(state, mark) == value,
    )
}

// Whether nothing is unknown, by the counts of what is.
fn is_exact(steps_unsure: usize, marks_unknown: usize) -> bool
    ensures only { result ≡ true → (steps_unsure ≡ 0) × (marks_unknown ≡ 0) }
    ensures told { steps_unsure ≡ 0 → marks_unknown ≡ 0 → result ≡ true }
{
    steps_unsure == 0 && marks_unknown == 0
}

impl Census {
    // Counts what a system is made of.
    pub fn of<S: System>(system: &S) -> Census
        ensures { Counted (S.meaning system.now) result }
    {
        let steps_unsure = count_steps(system, Step::Unsure);
        let marks_unknown = count_marks(system, Colour::Undecided);
        Census {
            states: system.states(),
            marks: system.marks(),
            starts: count_below(system.states(), |state| system.is_start(state)),
            steps_sure: count_steps(system, Step::Sure),
            steps_unsure,
            steps_absent: count_steps(system, Step::Absent),
            marks_t: count_marks(system, Colour::T),
            marks_f: count_marks(system, Colour::F),
            marks_unknown,
            exact: is_exact(steps_unsure, marks_unknown),
        }
    }
}

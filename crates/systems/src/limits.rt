// How many states and marks a system may have.
ghost use Rattle.std.specs.Prelude.{Decides};
ghost use Rattle.systems.specs.Tabled.{InRange};

pub const MAX_STATES: usize = 128;

pub const MAX_MARKS: usize = 16;

// Whether there are 1 to 128 states and 1 to 16 marks.
pub fn are_in_range(states: usize, marks: usize) -> bool
    ensures { Decides result (InRange states marks) }
{
    (1..=MAX_STATES).contains(&states) && (1..=MAX_MARKS).contains(&marks)
}

// A system written out in full, in arrays of its own.
ghost use Rattle.systems.specs.Tabled.{InRange, GoesAndStarts};

use crate::kinds::{Colour, Step};

mod answering;
mod copying;
mod making;

// A row of 128 places holds the steps from a state, a row of 16 its marks; places beyond the number
// of states or marks are not used. The arrays are fixed, since making a table may not fail for want
// of memory; flat, and one for each kind of answer, as `from_parts`, which is public, takes them.
#[derive(Clone, Copy)]
pub struct Table {
    states: usize,
    marks: usize,
    steps: [Step; 16384],
    values: [Colour; 2048],
    starts: [bool; 128],
    ghost ranged: { InRange states marks },
    ghost lawful: { GoesAndStarts states steps starts },
}

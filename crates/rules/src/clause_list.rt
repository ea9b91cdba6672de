// The clauses of a rule while it is read.
ghost use Rattle.std.specs.Prelude.{◌≡◌, length};

use crate::syntax::Clause;

mod methods;

// The most clauses that a rule may have.
pub const MAX_CLAUSES: usize = 64;

// The clauses read so far: the first 64, and how many there are. The count is not the length of what is kept: it goes
// on past 64, since a text that is no rule is refused for that before, so a vector would need a count beside it too. Not one
// type with the buffer of a line, whose count stops at what is kept.
#[derive(Clone, Copy)]
pub struct ClauseList {
    pub clauses: [Clause; MAX_CLAUSES],
    pub count: usize,
    ghost whole: { length clauses ≡ 64 },
}

// Colouring a board, and the search for what leaves a rule undecided on it.
#![tactic(auto)]

pub mod cause;
pub mod links;

pub use cause::find_cause;
pub use colouring::{Tally, colour, colour_at, count_positions, verdict};
pub use links::Link;

// Colouring a board: the colour of every clause of a rule at every state of a table, proved against
// the definition of colours.
#![tactic(auto)]

pub mod boards;
mod cells;
mod clauses;
pub mod colouring;
mod columns;
mod fall;
mod notes;
mod plain;
mod rise;
mod truth;

pub use boards::{Tally, colour_at, count_positions, verdict};
pub use colouring::colour;

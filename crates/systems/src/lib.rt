// Partly known systems of steps behind one interface, and the numbers that answers and refusals go by.
#![tactic(auto)]

pub mod counting;
pub mod interface;
pub mod kinds;
pub mod limits;
pub mod passes;
pub mod refusals;
pub mod tabled;

pub use counting::Census;
pub use interface::System;
pub use kinds::{Colour, Step, UnlistedByte};
pub use limits::{MAX_MARKS, MAX_STATES};
pub use passes::PassStore;
pub use refusals::{Fault, Refusal};
pub use tabled::Table;

// Studies: a system, the groups of its states and a rule, with the six calls that change and ask them,
// the slips that a cause hands out, and the law over every run of calls.
#![tactic(auto)]

pub mod filing;
pub mod slip;
pub mod study;

pub use filing::file;
pub use slip::Slip;
pub use study::Study;

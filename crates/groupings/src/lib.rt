// Groupings: systems whose states are groups of the states of a system below.
#![tactic(auto)]

pub mod groups;
pub mod members;

pub use groups::Grouping;
pub use members::Membership;

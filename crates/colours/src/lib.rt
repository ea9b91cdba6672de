// The mathematics of colours: definitions to believe in specs/, a small function for each theorem, and the types that chains are made of.
#![tactic(auto)]

pub mod chains;
pub mod paths;
pub mod theorems;

pub use chains::{Position, Reason};

// The table file: a system of steps as its builder writes it.
#![tactic(auto)]

mod bodies;
mod contents;
mod file;
pub mod reading;
pub mod vetting;

pub use contents::MAX_LENGTH;
pub use reading::read;
pub use vetting::vet;

// The waiting queue, one text for every kind of element.
#![tactic(auto)]

pub mod ring;

pub use ring::Ring;
